//! A reader of decks, line by line (`specs/Reading.antt`). It returns the deck of `specs/Deck.antt`, or the first fault of
//! `specs/Fault.antt`.

ghost use Rattle.std.specs.Prelude.{◌≡◌, ◌<◌, ◌≤◌, ◌-◌, ◌+◌, ◌^◌, ◌++◌, List, [], ◌∷◌, ℕ, true, false, map, Some, length};
ghost use Rattle.std.specs.Prelude.{MatchResult, IfOk, IfErr, OnOk, IsSome, if◌then◌else◌};
ghost use Rattle.std.specs.Str.{bytes_eq};
ghost use Rattle.mv_deck.specs.Prelude.{JobData, job_data, deck_data, deck_of, jobs_of, place_of, fresh_job, step_of, place_in};
ghost use Rattle.mv_deck.specs.Prelude.{most_after, most_initiators};
ghost use Rattle.mv_deck.specs.Fault.{first_fault, TellsFirst, kind_number, kinds_of_statement, line_rules};
ghost use Rattle.mv_deck.specs.Form.{stated, part_data, listed};
ghost use Rattle.mv_deck.specs.Held.{HasNumberInRange, held, latches, is_end as ends_by};
ghost use Rattle.mv_deck.specs.Reading.{HasFewJobs, IsBehind, IsGoodJob, jobs_read};
ghost use Rattle.mv_deck.specs.Statement.{Statement, Null, DeckOf, JobOf};
ghost use Rattle.mv_line.specs.Fault.{TellsLowest};

use crate::fault::Kind;
use crate::form::{Form, Part, Version, form_of, parts_of, version_of};
use crate::held::Held;
use crate::line::is_comment;
use crate::names::Names;
use crate::operand::{MOST_AFTER, amount, code, end_code, is_name, latch};
use crate::parts::{has_bad_code, has_bad_name, has_double};
use crate::weight::{HEAVIEST, step_events};
use crate::{After, Deck, DeckRefusal, Job, Name, Step, Text};
use mv_line::{LineReader, LineRefusal, is_foreign, is_too_long, is_word, read_lines, shown};
use std::alloc::{AllocError, Global};

/// Reads a deck for a spool of `initiators` initiators, 1 to 8.
///
/// `docs/FORMATS.md` describes lines, fields and faults; names, the slashes, comments and the null statement are those of z/OS
/// MVS JCL Reference. Lines are counted from 1 in a `u32`, and the line after the last has a number, too; so the text has fewer
/// than 2^32 - 1 bytes. The time is linear in the bytes.
///
/// # Errors
///
/// `Fault`, the first fault of the text, if it has one. `NoMemory` if there is not enough memory for the jobs, which may happen
/// before a fault is reached.
///
/// # Examples
///
/// From `crates/mv_program/src/texts.rt`:
///
/// ```
/// let deck = match read_deck(host.alloc, input, initiators) {
///     Ok(deck) => deck,
///     Err(refusal) => return Err(Status::Deck(refusal.fault()?)),
/// };
/// ```
pub fn read_deck(alloc: Global, bytes: &[u8], initiators: u32) -> Result<Deck, DeckRefusal>
    requires short { length bytes.now < 2 ^ 32 - 1 }
    requires initiators { (1 ≤ initiators) × (initiators ≤ most_initiators) }

    // A text that is read has no fault, and the result is its deck.
    ensures deck { IfOk result (λ d. (first_fault bytes.now initiators ≡ None) × (deck_data d ≡ deck_of bytes.now)) }
    // A fault that is returned is the first.
    ensures fault { IfErr result (λ e. TellsFirst e (first_fault bytes.now initiators)) }
{
    let mut reading = Reading::new(alloc, initiators, version_of(bytes));
    if let Err(refusal) = read_lines(&mut reading, bytes) {
        return Err(refusal);
    }
    Ok(reading.deck()?)
}

// What the lines so far have stated.
#[derive(Drop)]
struct Reading<'a> {
    alloc: Global,
    initiators: u32,
    version: Version,
    // The jobs before the last one.
    finished: Vec<Job>,
    // The last job, which takes steps, once there is one.
    name: Option<Name>,
    after: Vec<After>,
    steps: Vec<Step>,
    // The places of all jobs.
    names: Names<'a>,
    // The latches that the last job holds.
    held: Held,
    // Whether the last job has ended by an ABEND or a RETURN.
    closed: bool,
    // How much weight the deck may still gain.
    room: u64,
    // Whether a statement was read.
    stated: bool,
    // Whether the null statement was read.
    ended: bool,
}

impl<'a> LineReader<'a> for Reading<'a> {
    ghost use Rattle.mv_deck.specs.declared.form.Version.{Version};

    type Kind = Kind;

    ghost Setting = { ℕ × Version };

    ghost Said = { List Statement };

    ghost rules = { λ s. line_rules s.0 s.1 };

    ghost HasTaken = { λ s earlier r. IsBehind s.0 s.1 earlier r };

    fn take_line(&mut self, line: &'a [u8]) -> Result<(), LineRefusal<Kind>> {
        if is_foreign(line) {
            return Err(LineRefusal::Has(Kind::ForeignByte));
        }
        if is_too_long(line) {
            return Err(LineRefusal::Has(Kind::TooLong));
        }
        let text = shown(line);
        if text.is_empty() || is_comment(text) {
            return Ok(());
        }
        match form_of(self.version, text) {
            None => Err(LineRefusal::Has(Kind::NoForm)),
            Some(form) => self.take(form),
        }
    }

    fn kind_at_end(&self) -> Option<Kind> {
        if self.ended { None } else { Some(Kind::NoNull) }
    }
}

impl<'a> Reading<'a> {
    fn new(alloc: Global, initiators: u32, version: Version) -> Self
        requires { initiators ≤ most_initiators }
        ensures { IsBehind initiators version [] result }
    {
        Reading {
            alloc,
            initiators,
            version,
            finished: Vec::new(alloc),
            name: None,
            after: Vec::new(alloc),
            steps: Vec::new(alloc),
            names: Names::new(alloc),
            held: Held::none(),
            closed: false,
            room: HEAVIEST - 9 * initiators as u64,
            stated: false,
            ended: false,
        }
    }

    // Takes a statement.
    fn take(&mut self, form: Form<'a>) -> Result<(), LineRefusal<Kind>>
        requires { HasFewJobs self.now }
        ensures { (n : ℕ) (v : Version) (earlier : List Statement) → IsBehind n v earlier self.old
            → MatchResult result
            (λ _. (kinds_of_statement n earlier (Some (stated v form.entry)) ≡ [])
            × IsBehind n v (earlier ++ stated v form.entry ∷ []) self.new)
            (λ e. TellsLowest kind_number e (kinds_of_statement n earlier (Some (stated v form.entry)))) }
    {
        match form {
            Form::Null => self.take_null(),
            Form::Deck(word) => self.take_deck(word),
            Form::Job(name, list) => self.take_job(name, list),
            Form::Print(text) => {
                let bytes = Vec::from_slice(self.alloc, text)?;
                self.take_step(Step::Print(Text { bytes }))
            }
            Form::Use(text, mode) => match latch(text) {
                Some(latch) => self.take_step(Step::Use(latch, mode)),
                None => Err(LineRefusal::Has(Kind::BadNumber)),
            },
            Form::Free(text) => match latch(text) {
                Some(latch) => self.take_step(Step::Free(latch)),
                None => Err(LineRefusal::Has(Kind::BadNumber)),
            },
            Form::Count(text, number) => match (latch(text), amount(number)) {
                (Some(volume), Some(amount)) => self.take_step(Step::Count(volume, amount)),
                _ => Err(LineRefusal::Has(Kind::BadNumber)),
            },
            Form::Scan(text) => match latch(text) {
                Some(volume) => self.take_step(Step::Scan(volume)),
                None => Err(LineRefusal::Has(Kind::BadNumber)),
            },
            Form::Abend(text) => match end_code(text) {
                Some(end) => self.take_step(Step::Abend(end)),
                None => Err(LineRefusal::Has(Kind::BadNumber)),
            },
            Form::Return(text) => match code(text) {
                Some(code) => self.take_step(Step::Return(code)),
                None => Err(LineRefusal::Has(Kind::BadNumber)),
            },
        }
    }

    // Takes a null statement.
    fn take_null(&mut self) -> Result<(), LineRefusal<Kind>>
        ensures { (n : ℕ) (v : Version) (earlier : List Statement) → IsBehind n v earlier self.old
            → MatchResult result
            (λ _. (kinds_of_statement n earlier (Some Null) ≡ []) × IsBehind n v (earlier ++ Null ∷ []) self.new)
            (λ e. TellsLowest kind_number e (kinds_of_statement n earlier (Some Null))) }
    {
        if self.ended {
            return Err(LineRefusal::Has(Kind::Misplaced));
        }
        self.stated = true;
        self.ended = true;
        Ok(())
    }

    // Takes a DECK that has this word.
    fn take_deck(&mut self, word: &[u8]) -> Result<(), LineRefusal<Kind>>
        ensures { (n : ℕ) (v : Version) (earlier : List Statement) → IsBehind n v earlier self.old
            → MatchResult result
            (λ _. (kinds_of_statement n earlier (Some (DeckOf word.now)) ≡ []) × IsBehind n v (earlier ++ DeckOf word.now ∷ []) self.new)
            (λ e. TellsLowest kind_number e (kinds_of_statement n earlier (Some (DeckOf word.now)))) }
    {
        if !is_word(word, b"2") {
            return Err(LineRefusal::Has(Kind::BadNumber));
        }
        if self.ended {
            return Err(LineRefusal::Has(Kind::Misplaced));
        }
        if self.closed {
            return Err(LineRefusal::Has(Kind::BehindEnd));
        }
        if self.stated {
            return Err(LineRefusal::Has(Kind::LateDeck));
        }
        self.stated = true;
        Ok(())
    }

    // Takes a JOB of this name that waits for the jobs of this list.
    fn take_job(&mut self, name: &'a [u8], list: Option<&'a [u8]>) -> Result<(), LineRefusal<Kind>>
        requires { HasFewJobs self.now }
        ensures { (n : ℕ) (v : Version) (earlier : List Statement) → IsBehind n v earlier self.old
            → MatchResult result
            (λ _. (kinds_of_statement n earlier (Some (JobOf name.now (listed v list.entry))) ≡ [])
            × IsBehind n v (earlier ++ JobOf name.now (listed v list.entry) ∷ []) self.new)
            (λ e. TellsLowest kind_number e (kinds_of_statement n earlier (Some (JobOf name.now (listed v list.entry))))) }
    {
        let parts = parts_of(self.alloc, self.version, list)?;
        if let Err(refusal) = self.check_job(name, &parts) {
            return Err(refusal);
        }
        let weight = 8 + 9 * self.initiators as u64 + 2 * parts.len() as u64;
        if weight > self.room {
            return Err(LineRefusal::Has(Kind::TooHeavy));
        }
        self.begin(name, &parts)?;
        self.room -= weight;
        Ok(())
    }

    // Returns the lowest kind of fault of a JOB, leaving its weight aside, if it has one.
    fn check_job(&self, name: &'a [u8], parts: &[Part<'a>]) -> Result<(), LineRefusal<Kind>>
        ensures few { OnOk result (length parts.now ≤ most_after) }
        ensures kinds { (n : ℕ) (v : Version) (earlier : List Statement) → IsBehind n v earlier self.now
            → MatchResult result
            (λ _. IsGoodJob earlier (jobs_of earlier) (JobOf name.now (map part_data parts.now)))
            (λ e. TellsLowest kind_number e (kinds_of_statement n earlier (Some (JobOf name.now (map part_data parts.now))))) }
    {
        if !is_name(name) || has_bad_name(parts) {
            return Err(LineRefusal::Has(Kind::BadName));
        }
        if self.ended {
            let kind = if has_bad_code(parts) {
                Kind::BadNumber
            } else {
                Kind::Misplaced
            };
            return Err(LineRefusal::Has(kind));
        }
        if self.names.place(name).is_some() {
            return Err(LineRefusal::Has(Kind::RepeatedName));
        }
        if self.names.lacks_one(parts) {
            return Err(LineRefusal::Has(Kind::UnknownAfter));
        }
        if parts.len() > MOST_AFTER || has_double(parts) {
            return Err(LineRefusal::Has(Kind::CrowdedAfter));
        }
        if has_bad_code(parts) {
            return Err(LineRefusal::Has(Kind::BadNumber));
        }
        Ok(())
    }

    // Begins a job.
    fn begin(&mut self, name: &'a [u8], parts: &[Part<'a>]) -> Result<(), AllocError>
        requires { HasFewJobs self.now }
        ensures jobs { (jobs : List JobData) → ((q : List ℕ) → place_in self.old.names q ≡ place_of jobs q) → jobs_read self.old ≡ jobs
            → OnOk result (jobs_read self.new ≡ jobs ++ fresh_job jobs name.now (map part_data parts.now) ∷ []) }
        ensures names { (jobs : List JobData) → jobs_read self.old ≡ jobs
            → OnOk result ((q : List ℕ)
            → place_in self.new.names q ≡ (if bytes_eq name.now q then Some (length jobs) else place_in self.old.names q)) }
        ensures begun { OnOk result (IsSome self.new.name) }
        ensures held { OnOk result (self.new.held.modes ≡ map (held []) latches) }
        ensures flags { OnOk result ((self.new.closed ≡ false) × (self.new.stated ≡ true) × (self.new.ended ≡ self.old.ended)) }
        ensures others { OnOk result ((self.new.room ≡ self.old.room) × (self.new.initiators ≡ self.old.initiators)
            × (self.new.version ≡ self.old.version)) }
    {
        let after = self.names.after(self.alloc, parts)?;
        self.finish()?;
        let place = self.finished.len();
        self.names.give(name, place as u32)?;
        self.name = Some(Name {
            bytes: Vec::from_slice(self.alloc, name)?,
        });
        self.after = after;
        self.held = Held::none();
        self.closed = false;
        self.stated = true;
        Ok(())
    }

    // Takes a step of the last job.
    fn take_step(&mut self, step: Step) -> Result<(), LineRefusal<Kind>>
        requires { HasNumberInRange step }
        ensures { (n : ℕ) (v : Version) (earlier : List Statement) (s : Statement) → IsBehind n v earlier self.old → step_of s ≡ Some step
            → MatchResult result
            (λ _. (kinds_of_statement n earlier (Some s) ≡ []) × IsBehind n v (earlier ++ s ∷ []) self.new)
            (λ e. TellsLowest kind_number e (kinds_of_statement n earlier (Some s))) }
    {
        if self.ended || self.name.is_none() {
            return Err(LineRefusal::Has(Kind::Misplaced));
        }
        if self.closed {
            return Err(LineRefusal::Has(Kind::BehindEnd));
        }
        if self.held.is_out_of_order(&step) {
            return Err(LineRefusal::Has(Kind::LatchOrder));
        }
        if self.held.lacks_latch(&step) {
            return Err(LineRefusal::Has(Kind::LatchNotHeld));
        }
        let weight = self.initiators as u64 * step_events(&step) as u64;
        if weight > self.room {
            return Err(LineRefusal::Has(Kind::TooHeavy));
        }
        self.room -= weight;
        self.held.follow(&step);
        self.closed = is_end(&step);
        self.steps.push(step)?;
        Ok(())
    }

    // Moves the last job to the finished ones.
    fn finish(&mut self) -> Result<(), AllocError>
        ensures jobs { OnOk result (map job_data self.new.finished.items ≡ jobs_read self.old) }
        ensures steps { OnOk result (self.new.steps.items ≡ []) }
        ensures flags { OnOk result ((self.new.closed ≡ self.old.closed) × (self.new.stated ≡ self.old.stated)
            × (self.new.ended ≡ self.old.ended)) }
        ensures others { OnOk result ((self.new.room ≡ self.old.room) × (self.new.initiators ≡ self.old.initiators)
            × (self.new.version ≡ self.old.version) × (self.new.names ≡ self.old.names)) }
        ensures bound { OnOk result (length self.new.finished.items ≤ length self.old.finished.items + 1) }
    {
        // The steps of a finished job take no more memory than they need; those of the next job reuse the buffer.
        let mut steps = Vec::with_capacity(self.alloc, self.steps.len())?;
        steps.append(&mut self.steps)?;
        let after = std::mem::replace(&mut self.after, Vec::new(self.alloc));
        if let Some(name) = self.name.take() {
            self.finished.push(Job { name, after, steps })?;
        }
        Ok(())
    }

    // The deck that all lines have stated.
    fn deck(mut self) -> Result<Deck, AllocError>
        ensures { IfOk result (λ d. deck_data d ≡ jobs_read self.entry) }
    {
        self.finish()?;
        Ok(Deck {
            jobs: self.finished,
        })
    }
}

// Whether a job ends with this step.
fn is_end(step: &Step) -> bool
    ensures { result ≡ ends_by step.now }
{
    match step {
        Step::Abend(_) | Step::Return(_) => true,
        Step::Print(_) | Step::Use(_, _) | Step::Free(_) | Step::Count(_, _) | Step::Scan(_) =>
            false,
    }
}
