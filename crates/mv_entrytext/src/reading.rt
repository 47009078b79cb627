//! A journal, read into a list, by `specs/Journal.antt` and `specs/Fault.antt`.

ghost use Rattle.std.specs.Prelude.{◌≡◌, ◌<◌, ◌-◌, ◌^◌, length, IfOk, IfErr, OnOk};
ghost use Rattle.mv_entrytext.specs.Lines.{with_call};
ghost use Rattle.mv_entrytext.specs.Fault.{HasJournal, IsTextIn, TellsFirst, text_fault};
ghost use Rattle.mv_entrytext.specs.Journal.{first_line};

use crate::reader::{OpenJournal, open_journal};
use mv_io::NoMemory;
use mv_line::TextRefusal;
use mv_machine::{Entry, ValidConfig};
use std::alloc::Global;

/// A journal that was read.
#[derive(Drop)]
pub struct Journal {
    /// The version of the text: 1 or 2.
    pub version: u32,
    pub config: ValidConfig,
    pub entries: Vec<Entry>,
    /// The number of each entry's call in version 2, and nothing in version 1.
    pub calls: Vec<u32>,
    /// The number of the line after `EVENTS`, counted from 1.
    pub first_line: u32,
}

// Appends the number of an entry's call, if its line has one.
fn push_call(calls: &mut Vec<u32>, call: Option<u32>) -> Result<(), NoMemory>
    ensures { OnOk result (calls.new.items ≡ with_call call calls.old.items) }
{
    if let Some(number) = call {
        calls.push(number)?;
    }
    Ok(())
}

/// Reads a journal, in either version of the text. It does not check call numbers: `replay_calls` judges whether they are
/// right.
///
/// It makes one pass, in time linear in the length, and keeps no list of lines. An entry takes 80 bytes, and its call's number
/// 4, in `Vec`s that grow by doubling; its line takes at least 18 bytes of the text. Lines are counted from 1 in a `u32`, which
/// also has to count the line after the last one: so a text has fewer than 2^32 - 1 bytes.
///
/// # Errors
///
/// Returns `Fault` if the text has a fault: its first. Returns `NoMemory` if there is not enough memory for the head or the
/// entries, which may be found before a fault is reached.
pub fn read_journal(alloc: Global, bytes: &[u8]) -> Result<Journal, TextRefusal>
    requires short { length bytes.now < 2 ^ 32 - 1 }

    // What is read is a journal, and the bytes are its text in its version.
    ensures journal { IfOk result (λ j. HasJournal j.config j.entries.items) }
    ensures text { IfOk result (λ j. IsTextIn j.version bytes.now j.config j.entries.items j.calls.items) }
    ensures first_line { IfOk result (λ j. j.first_line ≡ first_line j.config) }
    // The fault that is returned is the first.
    ensures fault { IfErr result (λ e. TellsFirst e (text_fault bytes.now)) }
{
    let OpenJournal {
        version,
        config,
        entries: mut reader,
    } = open_journal(alloc, bytes)?;
    let first_line = reader.line();
    let mut entries = Vec::new(alloc);
    let mut calls = Vec::new(alloc);
    'entries: loop {
        match reader.next() {
            Ok(Some((call, entry))) => {
                push_call(&mut calls, call)?;
                entries.push(entry)?;
            }
            Ok(None) => {
                return Ok(Journal {
                    version: version.number(),
                    config,
                    entries,
                    calls,
                    first_line,
                });
            }
            Err(fault) => return Err(TextRefusal::Fault(fault)),
        }
    }
}
