//! Laws about initiators that note what they do, and about what the initiators of a run bring back (`specs/Noting.antt`,
//! `specs/Recording.antt`).
//!
//! ```text
//!   a run ── runs_record_each_job ──> one right record of each job ── records_give_the_lines ──> the lines of the deck
//! ```

ghost use Rattle.std.specs.Prelude.{◌≡◌, ◌≤◌, ◌↔◌, ℕ, List, []};
ghost use Rattle.mv_wait.specs.Prelude.{Kept, Done, Heard, Says, left, Entry, Setup};
ghost use Rattle.mv_deck.specs.Deck.{JobData};
ghost use Rattle.mv_deck.specs.Sound.{IsSound};
ghost use Rattle.mv_plan.specs.Prelude.{IsRun, initiating};
ghost use Rattle.mv_report.specs.Outcome.{lines};
ghost use Rattle.mv_work.specs.Noting.{initiating_noted};
ghost use Rattle.mv_work.specs.Recording.{AreBrought, AreRecorded, all_records, lines_recorded};
ghost use Rattle.mv_work.specs.Records.{JobRecord};

/// An initiator that notes makes the calls of the plan's initiator: their traces are the same, and each is done exactly if the other is.
pub fn initiators_note_what_they_do()
    ensures says { (c : Setup) (deck : List JobData) (i : ℕ) (kept : Kept) (hs : List Heard)
        → Says (initiating_noted c deck i kept) hs ↔ Says (initiating c deck i kept) hs }
    ensures done { (c : Setup) (deck : List JobData) (i : ℕ) (kept : Kept) (hs : List Heard) (records : List JobRecord)
        → left (initiating_noted c deck i kept) hs ≡ Done records → left (initiating c deck i kept) hs ≡ Done [] }
    ensures records { (c : Setup) (deck : List JobData) (i : ℕ) (kept : Kept) (hs : List Heard) (answer : List ℕ)
        → left (initiating c deck i kept) hs ≡ Done answer
        → (records : List JobRecord) × (left (initiating_noted c deck i kept) hs ≡ Done records) }
{}

/// In each run the initiators bring back one record of each job: its end is the deck's, and what is noted are the PRINT and SCAN
/// steps that the job did, each SCAN with one number twice.
pub fn runs_record_each_job()
    ensures { (deck : List JobData) (initiators : ℕ) (es : List Entry) (records : List (List JobRecord))
        → 1 ≤ initiators → IsSound deck initiators → IsRun deck initiators es → AreBrought deck initiators es records
        → AreRecorded deck (all_records records) }
{}

/// Right records give the lines that the deck means.
pub fn records_give_the_lines()
    ensures { (deck : List JobData) (records : List JobRecord) → AreRecorded deck records → lines_recorded deck records ≡ lines deck }
{}
