//! The journal of a run, made and written piece by piece, by `specs/HistoryText.antt`.

ghost use Rattle.std.specs.Prelude.{◌≡◌, ◌≤◌, ◌<◌, ◌+◌, ◌^◌, ◌++◌, [], ℕ, List, length, All, IfOk, OnOk, OnErr, vec_len, vec_capacity};
ghost use Rattle.std.specs.declared.option.Option.{Option as AnyOption};
ghost use Rattle.mv_io.specs.Fault.{Rose};
ghost use Rattle.mv_io.specs.Sink.{Appends, AppendsFront};
ghost use Rattle.mv_calls.specs.Prelude.{Legal, events_limit, HasCounted};
ghost use Rattle.mv_operationtext.specs.EntryText.{IsTyped};
ghost use Rattle.mv_entrytext.specs.Fault.{HasJournal};
ghost use Rattle.mv_entrytext.specs.HistoryText.{piece_size, IsWrittenSoFar};
ghost use Rattle.mv_entrytext.specs.Journal.{End, Two, head_text, journal_text, line};
ghost use Rattle.mv_operationtext.specs.Widths.{line_width};

use crate::typed::tell_history;
use crate::writing::{push_head, put_end_line, put_entry_line};
use mv_calls::CallCounters;
use mv_io::{Failed, NoMemory, Sink, write_all};
use mv_machine::{History, ValidConfig};
use mv_operationtext::{LINE_WIDTH, Version};
use std::alloc::Global;
use std::marker::Model;

/// The most bytes of a piece. Only the first piece can be longer, if the head is; a shorter head is in one piece with the
/// entries after it.
const PIECE: usize = 65_536;

/// The journal of a run: its configuration and its history, in version 2 of the text, with the call numbers that the machine's
/// rules give. Contracts see it as that text. `open` makes the head, and `write` makes the rest while it writes, in the same
/// memory.
#[derive(Drop)]
pub struct HistoryText {
    history: History,
    counters: CallCounters,
    // The next piece: the head, with room for any other piece.
    piece: Vec<u8>,
}

impl Model for HistoryText {
    ghost use Rattle.std.specs.Prelude.{List, ℕ};

    ghost Value = { List ℕ };

    ghost use Rattle.mv_entrytext.specs.HistoryText.{text_of_history, IsUnwritten};

    ghost view = { text_of_history };

    ghost invariant = { IsUnwritten };
}

// Writes the piece, and begins the next piece in its memory.
fn write_piece<K: Sink>(journal: &mut K, piece: &mut Vec<u8>) -> Result<(), Failed>
    ensures written { (first : AnyOption (List ℕ)) (text : List ℕ) → IsWrittenSoFar first (K.taken journal.old) piece.old.items text
        → OnOk result (IsWrittenSoFar first (K.taken journal.new) piece.new.items text) }
    ensures cut { (first : AnyOption (List ℕ)) (text : List ℕ) → IsWrittenSoFar first (K.taken journal.old) piece.old.items text
        → OnErr result (AppendsFront first (K.taken journal.new) text) }
    ensures empty { OnOk result (piece.new.items ≡ []) }
    ensures capacity { vec_capacity piece.new ≡ vec_capacity piece.old }
    ensures failed { OnErr result (Rose (K.faults journal.old) (K.faults journal.new)) }
    ensures count { K.faults journal.old ≤ K.faults journal.new }
{
    match write_all(journal, piece) {
        Ok(()) => {
            piece.clear();
            Ok(())
        }
        Err(_) => Err(Failed),
    }
}

// Writes the piece if it has no room for one more line, and then begins the next one.
#[inline(always)]
fn make_room<K: Sink>(journal: &mut K, piece: &mut Vec<u8>) -> Result<(), Failed>
    requires size { piece_size ≤ vec_capacity piece.old }
    ensures written { (first : AnyOption (List ℕ)) (text : List ℕ) → IsWrittenSoFar first (K.taken journal.old) piece.old.items text
        → OnOk result (IsWrittenSoFar first (K.taken journal.new) piece.new.items text) }
    ensures cut { (first : AnyOption (List ℕ)) (text : List ℕ) → IsWrittenSoFar first (K.taken journal.old) piece.old.items text
        → OnErr result (AppendsFront first (K.taken journal.new) text) }
    ensures room { OnOk result (vec_len piece.new + line_width ≤ vec_capacity piece.new) }
    ensures capacity { vec_capacity piece.new ≡ vec_capacity piece.old }
    ensures failed { OnErr result (Rose (K.faults journal.old) (K.faults journal.new)) }
    ensures count { K.faults journal.old ≤ K.faults journal.new }
{
    if piece.len() + LINE_WIDTH <= PIECE {
        return Ok(());
    }
    write_piece(journal, piece)
}

// Writes the last line, with what is left of the text before it.
#[inline(always)]
fn write_end<K: Sink>(journal: &mut K, rest: &mut Vec<u8>, count: u64) -> Result<(), Failed>
    requires size { piece_size ≤ vec_capacity rest.old }
    ensures whole { (first : AnyOption (List ℕ)) (text : List ℕ) → IsWrittenSoFar first (K.taken journal.old) rest.old.items text
        → OnOk result (Appends first (K.taken journal.new) (text ++ line (End count))) }
    ensures cut { (first : AnyOption (List ℕ)) (text : List ℕ) → IsWrittenSoFar first (K.taken journal.old) rest.old.items text
        → OnErr result (AppendsFront first (K.taken journal.new) (text ++ line (End count))) }
    ensures failed { OnErr result (Rose (K.faults journal.old) (K.faults journal.new)) }
    ensures count { K.faults journal.old ≤ K.faults journal.new }
{
    make_room(journal, rest)?;
    put_end_line(rest, count);
    write_piece(journal, rest)
}

// Makes the first piece, which is the head with room for any other piece, and the call counters.
fn first_piece(alloc: Global, config: &ValidConfig) -> Result<(Vec<u8>, CallCounters), NoMemory>
    ensures head { IfOk result (λ x. x.0.items ≡ head_text Two config.now) }
    ensures room { IfOk result (λ x. piece_size ≤ vec_capacity x.0) }
    ensures counted { IfOk result (λ x. HasCounted config.now [] x.1) }
{
    let mut piece = Vec::new(alloc);
    push_head(&mut piece, Version::Two, config.config())?;
    piece.reserve(PIECE)?;
    let counters = CallCounters::open(alloc, config)?;
    Ok((piece, counters))
}

impl HistoryText {
    /// Opens the journal of a history for writing, and makes its head. All memory is taken here: that of a piece and of the
    /// head, and that of the call counters. It takes time linear in the length of the history: it looks at each entry once, for
    /// the facts that the types of its numbers give (`typed`).
    ///
    /// The history is legal, so each operation and reply is of its object's kind, with numbers in the ranges of
    /// `docs/FORMATS.md`. The ranges that the types of the numbers give need no condition.
    ///
    /// # Errors
    ///
    /// Returns `NoMemory` if there is not enough memory for that.
    pub fn open(alloc: Global, history: History) -> Result<HistoryText, NoMemory>
        requires whole { history.past ≡ [] }
        requires legal { Legal history.config history.coming }
        requires few { length history.coming < 2 ^ 32 }
        ensures text { IfOk result (λ text. text ≡ journal_text history.config history.coming) }
        ensures typed { OnOk result (All IsTyped history.coming) }
        // If the history has at most as many entries as a run may have, the text reads back.
        ensures readable { length history.coming ≤ events_limit → OnOk result (HasJournal history.config history.coming) }
    {
        let (piece, counters) = first_piece(alloc, history.config())?;
        tell_history(&history);
        Ok(HistoryText {
            history,
            counters,
            piece,
        })
    }

    /// Writes the text, in one pass: it numbers each entry and makes its line as the history gives the entry. It takes no
    /// memory.
    ///
    /// # Errors
    ///
    /// Returns `Failed` at the sink's first failure, and does not try again.
    // It is not inlined: within a whole run, its loop would keep fewer values in registers.
    #[inline(never)]
    pub fn write<K: Sink>(self, journal: &mut K) -> Result<(), Failed>
        ensures whole { OnOk result (Appends (K.taken journal.old) (K.taken journal.new) self) }
        ensures cut { OnErr result (AppendsFront (K.taken journal.old) (K.taken journal.new) self) }
        ensures failed { OnErr result (Rose (K.faults journal.old) (K.faults journal.new)) }
        ensures count { K.faults journal.old ≤ K.faults journal.new }
    {
        let HistoryText {
            mut history,
            mut counters,
            mut piece,
        } = self;
        let mut count = 0u64;
        while let Some(entry) = history.next() {
            make_room(journal, &mut piece)?;
            let call = counters.count(history.config(), &entry, history.state().wakes());
            put_entry_line(&mut piece, Some(call), &entry);
            count += 1;
        }
        write_end(journal, &mut piece, count)
    }
}
