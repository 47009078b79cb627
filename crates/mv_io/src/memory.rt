//! Sources and sinks in memory, which fail at chosen calls. Their clauses cite specs/MemSource and specs/MemSink for the exact
//! effect of a call, beside those of the traits.

ghost use Rattle.std.specs.Prelude.{◌≡◌, ◌↔◌, ◌≤◌, length, Some, IfOk, IsErr, Contains};
ghost use Rattle.mv_io.specs.Fault.{HasCause, HasWriteCause};
ghost use Rattle.mv_io.specs.Source.{Reads};
ghost use Rattle.mv_io.specs.Sink.{Writes};
ghost use Rattle.mv_io.specs.MemSource.{fresh_source, given, after_read};
ghost use Rattle.mv_io.specs.MemSink.{fresh_sink, any_step, accepted, Refuses, after_write};

use crate::{Failed, NoMemory, Sink, Source};
use std::alloc::Global;
use std::marker::Model;

/// A source of given bytes, for tests. Calls of `read` are numbered from 0, and those with chosen numbers fail.
#[derive(Drop)]
pub struct MemSource {
    bytes: Vec<u8>,
    at: usize,
    step: usize,
    fail: Vec<u64>,
    calls: u64,
    faults: u64,
}

impl Model for MemSource {
    ghost use Rattle.std.specs.Prelude.{◌≤◌, drop, length};
    ghost use Rattle.mv_io.specs.MemSource.{SourceState};

    ghost Value = { SourceState };

    ghost view = { λ s. record {
      left = drop s.at s.bytes.items;
      step = s.step;
      fail = s.fail.items;
      calls = s.calls;
      faults = s.faults;
    } };

    ghost invariant = { λ s. (1 ≤ s.step) × (s.at ≤ length s.bytes.items) };
}

impl MemSource {
    /// Makes a source that gives these bytes, at most `step` of them in one call. The calls whose numbers are in `fail`, in any
    /// order, fail.
    ///
    /// # Errors
    ///
    /// `NoMemory` if there is not enough memory for a copy of both.
    pub fn new(
        alloc: Global,
        bytes: &[u8],
        step: usize,
        fail: &[u64],
    ) -> Result<MemSource, NoMemory>
        requires { 1 ≤ step }
        ensures { IfOk result (λ source. source ≡ fresh_source bytes.now step fail.now) }
    {
        Ok(MemSource {
            bytes: Vec::from_slice(alloc, bytes)?,
            at: 0,
            step,
            fail: Vec::from_slice(alloc, fail)?,
            calls: 0,
            faults: 0,
        })
    }
}

impl Source for MemSource {
    ghost left = { λ s. Some s.left };

    ghost faults = { λ s. s.faults };

    fn read(&mut self, buf: &mut [u8]) -> Result<usize, Failed>
        ensures bound { IfOk result (λ k. k ≤ length buf.new) }
        ensures bytes { Reads (Some self.old.left) (Some self.new.left) result buf.new }
        ensures faults { HasCause self.old.faults self.new.faults result }

        ensures fails { IsErr result ↔ Contains self.old.fail self.old.calls }
        ensures gives { IfOk result (λ k. k ≡ given self.old (length buf.old)) }
        ensures after { self.new ≡ after_read self.old result }
    {
        let call = self.calls;
        self.calls = call.saturating_add(1);
        if self.fail.contains(&call) {
            self.faults = self.faults.saturating_add(1);
            return Err(Failed);
        }
        let left = &self.bytes[self.at..];
        let count = self.step.min(buf.len()).min(left.len());
        buf[..count].copy_from_slice(&left[..count]);
        self.at += count;
        Ok(count)
    }
}

/// A sink with room for a fixed number of bytes, for tests. Calls of `write` are numbered from 0. Those with chosen numbers fail,
/// and so does one that has bytes to write and finds no room.
#[derive(Drop)]
pub struct MemSink {
    bytes: Vec<u8>,
    room: usize,
    step: usize,
    fail: Vec<u64>,
    calls: u64,
    faults: u64,
}

impl Model for MemSink {
    ghost use Rattle.std.specs.Prelude.{◌≤◌, length, vec_capacity};
    ghost use Rattle.mv_io.specs.MemSink.{SinkState};

    ghost Value = { SinkState };

    ghost view = { λ s. record {
      taken = s.bytes.items;
      room = s.room;
      step = s.step;
      fail = s.fail.items;
      calls = s.calls;
      faults = s.faults;
    } };

    ghost invariant = { λ s. (1 ≤ s.step) × (length s.bytes.items ≤ s.room) × (s.room ≤ vec_capacity s.bytes) };
}

impl MemSink {
    /// Makes an empty sink that takes as many bytes in one call as it has room for. All its memory is taken here, so `write`
    /// cannot run out of it.
    ///
    /// # Errors
    ///
    /// `NoMemory` if there is not enough memory for `room` bytes and a copy of `fail`.
    pub fn new(alloc: Global, room: usize, fail: &[u64]) -> Result<MemSink, NoMemory>
        ensures { IfOk result (λ sink. sink ≡ fresh_sink room any_step fail.now) }
    {
        MemSink::stepped(alloc, room, usize::MAX, fail)
    }

    /// Makes an empty sink that takes at most `step` bytes in one call; `step` is at least 1. All its memory is taken here.
    ///
    /// # Errors
    ///
    /// `NoMemory` if there is not enough memory for `room` bytes and a copy of `fail`.
    pub fn stepped(
        alloc: Global,
        room: usize,
        step: usize,
        fail: &[u64],
    ) -> Result<MemSink, NoMemory>
        requires { 1 ≤ step }
        ensures { IfOk result (λ sink. sink ≡ fresh_sink room step fail.now) }
    {
        Ok(MemSink {
            bytes: Vec::with_capacity(alloc, room)?,
            room,
            step,
            fail: Vec::from_slice(alloc, fail)?,
            calls: 0,
            faults: 0,
        })
    }

    /// Returns the bytes that the sink has taken, in their order.
    pub fn bytes(&self) -> &[u8]
        ensures { result.now ≡ self.now.taken }
    {
        &self.bytes
    }
}

impl Sink for MemSink {
    ghost taken = { λ s. Some s.taken };

    ghost faults = { λ s. s.faults };

    fn write(&mut self, piece: &[u8]) -> Result<usize, Failed>
        ensures bound { IfOk result (λ k. k ≤ length piece.now) }
        ensures bytes { Writes (Some self.old.taken) (Some self.new.taken) result piece.now }
        ensures faults { HasWriteCause self.old.faults self.new.faults result piece.now }

        ensures fails { IsErr result ↔ Refuses self.old piece.now }
        ensures takes { IfOk result (λ k. k ≡ accepted self.old (length piece.now)) }
        ensures after { self.new ≡ after_write self.old piece.now result }
    {
        let call = self.calls;
        self.calls = call.saturating_add(1);
        let room = self.room - self.bytes.len();
        if self.fail.contains(&call) || (room == 0 && !piece.is_empty()) {
            self.faults = self.faults.saturating_add(1);
            return Err(Failed);
        }
        let count = self.step.min(piece.len()).min(room);
        // The room was taken when the sink was made, so this cannot be refused.
        let Ok(()) = self.bytes.extend_from_slice(&piece[..count]) else {
            unreachable!()
        };
        Ok(count)
    }
}
