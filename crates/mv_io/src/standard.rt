//! Streams over std's readers and writers, which count their faults.
//!
//! They report as much of their bytes as std does: nothing for a file or a standard stream. Their clauses cite specs/StdSource
//! and specs/StdSink for the stream inside and its count, beside those of the traits.
//!
//! An interrupted call is an error like any other: nothing here handles signals, so the standard streams are not interrupted. No
//! clause can name what the stream inside returned. That each of its errors is one failure is tested.

ghost use Rattle.std.specs.Prelude.{◌≡◌, ◌<◌, ◌≤◌, length, IfOk, OnOk, OnErr};
ghost use Rattle.mv_io.specs.Fault.{one_more, HasCause, HasWriteCause};
ghost use Rattle.mv_io.specs.Limits.{piece_limit};
ghost use Rattle.mv_io.specs.Source.{Reads};
ghost use Rattle.mv_io.specs.Sink.{Writes};

use crate::{Failed, Sink, Source};
use std::io::{Read, Write};

// The most bytes that one call reads or writes.
const PIECE: usize = 64 * 1024;

/// A source over a reader of std.
///
/// Each error of the reader is a counted fault. A call asks for at most 65,536 bytes, and waits as long as the reader does.
#[derive(Drop)]
pub struct StdSource<R> {
    inner: R,
    faults: u64,
}

impl<R: Read> StdSource<R> {
    ghost use Rattle.mv_io.specs.StdSource.{std_source_reader, std_source_faults};

    /// Makes a source over this reader, without faults so far.
    pub fn new(inner: R) -> StdSource<R>
        ensures reader { std_source_reader result ≡ inner }
        ensures faults { std_source_faults result ≡ 0 }
    {
        StdSource { inner, faults: 0 }
    }

    /// Returns how often the reader has failed, up to 2^64 - 1.
    pub fn faults(&self) -> u64
        ensures { result ≡ std_source_faults self.now }
    {
        self.faults
    }
}

impl<R: Read> Source for StdSource<R> {
    ghost use Rattle.mv_io.specs.StdSource.{std_source_reader, std_source_faults};

    ghost left = { λ s. R.remaining (std_source_reader s) };

    ghost faults = { std_source_faults };

    fn read(&mut self, buf: &mut [u8]) -> Result<usize, Failed>
        ensures bound { IfOk result (λ k. k ≤ length buf.new) }
        ensures bytes { Reads (R.remaining (std_source_reader self.old)) (R.remaining (std_source_reader self.new)) result buf.new }
        ensures faults { HasCause (std_source_faults self.old) (std_source_faults self.new) result }

        ensures piece { IfOk result (λ k. k ≤ piece_limit) }
        ensures kept { OnOk result (std_source_faults self.new ≡ std_source_faults self.old) }
        ensures raised { OnErr result (std_source_faults self.new ≡ one_more (std_source_faults self.old)) }
    {
        let most = buf.len().min(PIECE);
        match self.inner.read(&mut buf[..most]) {
            Ok(count) => Ok(count),
            Err(_) => {
                self.faults = self.faults.saturating_add(1);
                Err(Failed)
            }
        }
    }
}

/// A sink over a writer of std.
///
/// Each error of the writer is a counted fault, and so is a write that takes no byte of a piece that has some. A call writes at
/// most 65,536 bytes, and waits as long as the writer does.
#[derive(Drop)]
pub struct StdSink<W> {
    inner: W,
    faults: u64,
}

impl<W: Write> StdSink<W> {
    ghost use Rattle.mv_io.specs.StdSink.{std_sink_writer, std_sink_faults};

    /// Makes a sink over this writer, without faults so far. It is never flushed: the standard streams of std do not buffer.
    pub fn new(inner: W) -> StdSink<W>
        ensures writer { std_sink_writer result ≡ inner }
        ensures faults { std_sink_faults result ≡ 0 }
    {
        StdSink { inner, faults: 0 }
    }

    /// Returns how often a write has failed, up to 2^64 - 1.
    pub fn faults(&self) -> u64
        ensures { result ≡ std_sink_faults self.now }
    {
        self.faults
    }
}

impl<W: Write> Sink for StdSink<W> {
    ghost use Rattle.mv_io.specs.StdSink.{std_sink_writer, std_sink_faults};

    ghost taken = { λ s. W.contents (std_sink_writer s) };

    ghost faults = { std_sink_faults };

    fn write(&mut self, piece: &[u8]) -> Result<usize, Failed>
        ensures bound { IfOk result (λ k. k ≤ length piece.now) }
        ensures bytes { Writes (W.contents (std_sink_writer self.old)) (W.contents (std_sink_writer self.new)) result piece.now }
        ensures faults { HasWriteCause (std_sink_faults self.old) (std_sink_faults self.new) result piece.now }

        ensures piece { IfOk result (λ k. k ≤ piece_limit) }
        ensures progress { IfOk result (λ k. 0 < length piece.now → 0 < k) }
        ensures kept { OnOk result (std_sink_faults self.new ≡ std_sink_faults self.old) }
        ensures raised { OnErr result (std_sink_faults self.new ≡ one_more (std_sink_faults self.old)) }
    {
        let most = piece.len().min(PIECE);
        match self.inner.write(&piece[..most]) {
            Ok(count) if count > 0 || piece.is_empty() => Ok(count),
            _ => {
                self.faults = self.faults.saturating_add(1);
                Err(Failed)
            }
        }
    }
}
