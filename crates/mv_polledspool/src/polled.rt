//! A polled task. Clauses cite `specs/Polled.antt`.

ghost use Rattle.std.specs.Prelude.{◌≡◌, ◌<◌, ◌≤◌, ◌+◌, ℕ, IfOk};
ghost use Rattle.mv_deck.specs.Deck.{deck_data};
ghost use Rattle.mv_deck.specs.Weight.{most_initiators};
ghost use Rattle.mv_polledspool.specs.Meeting.{HasRoom};
ghost use Rattle.mv_polledspool.specs.Polled.{HasTakenUp, IsPolled, IsUnpolled, is_finished};
ghost use Rattle.mv_polledspool.specs.declared.polled.State.TheVariants as state;
ghost use Rattle.mv_work.specs.Spool.{IsSpool};

use crate::meeting::Meeting;
use mv_deck::Deck;
use mv_io::NoMemory;
use mv_polled::Turn;
use mv_task::OpenGate;
use mv_wait::Task;
use mv_work::{Lost, Need, Spool, SpoolWork};
use std::alloc::Global;
use std::sync::Wait;

/// The state of a polled task.
#[derive(Clone, Copy)]
pub(crate) enum State {
    /// The task was not polled.
    New,
    /// The task waits in a call.
    Waits,
    /// The task makes no more events.
    Finished,
}

/// A polled task, with its work and the call in which it waits.
#[derive(Drop)]
pub(crate) struct Polled {
    pub task: Task,
    pub work: SpoolWork,
    pub meeting: Meeting,
    pub state: State,
}

impl Polled {
    /// Makes a task that was not polled, and takes all memory that its polls use.
    ///
    /// # Errors
    ///
    /// `NoMemory` if memory runs out. The task is dropped then.
    pub(crate) fn new(
        alloc: Global,
        task: Task,
        deck: &Deck,
        initiators: u32,
    ) -> Result<Polled, NoMemory>
        requires few { initiators ≤ most_initiators }
        ensures task { IfOk result (λ p. p.task ≡ task) }
        ensures new { IfOk result (IsUnpolled (deck_data deck.now) initiators) }
    {
        let meeting = Meeting::new(alloc)?;
        let work = SpoolWork::new(alloc, deck, initiators, task.number())?;
        Ok(Polled {
            task,
            work,
            meeting,
            state: State::New,
        })
    }

    /// Returns whether the task makes no more events.
    pub(crate) fn is_finished(&self) -> bool
        ensures { result ≡ is_finished self.now }
    {
        matches!(self.state, State::Finished)
    }

    /// Advances the task as far as it can: until it waits for something that has not happened, or is finished. It takes no
    /// memory.
    pub(crate) fn poll<R: Wait>(&mut self, rt: &R, spool: &Spool<'_, OpenGate>)
        requires spool { IsSpool spool.now }
        requires polled { (k : ℕ) × (k < spool.now.initiators + 3) × IsPolled spool.now k self.old }
        ensures polled { (k : ℕ) → k < spool.now.initiators + 3 → IsPolled spool.now k self.old
            → IsPolled spool.now k self.new }
    {
        for _ in rt.forever() {
            match self.state {
                State::New => self.begin(rt, spool),
                State::Waits => {
                    if !self.advance(rt, spool) {
                        return;
                    }
                }
                State::Finished => return,
            }
        }
    }

    // Begins the task, up to its first wait.
    fn begin<R: Wait>(&mut self, rt: &R, spool: &Spool<'_, OpenGate>)
        requires spool { IsSpool spool.now }
        requires polled { (k : ℕ) × (k < spool.now.initiators + 3) × IsPolled spool.now k self.old }
        requires new { self.old.state ≡ state.New }
        ensures polled { (k : ℕ) → k < spool.now.initiators + 3 → IsPolled spool.now k self.old
            → IsPolled spool.now k self.new }
    {
        let next = self.work.begin(rt, spool, &mut self.task);
        self.take_up(next);
    }

    // Polls the call in which the task waits. If it has an answer, resumes the task up to its next wait. Returns whether it had
    // one.
    fn advance<R: Wait>(&mut self, rt: &R, spool: &Spool<'_, OpenGate>) -> bool
        requires spool { IsSpool spool.now }
        requires polled { (k : ℕ) × (k < spool.now.initiators + 3) × IsPolled spool.now k self.old }
        requires waits { self.old.state ≡ state.Waits }
        ensures polled { (k : ℕ) → k < spool.now.initiators + 3 → IsPolled spool.now k self.old
            → IsPolled spool.now k self.new }
    {
        match self.meeting.poll(spool.station(), rt, &mut self.task) {
            Ok(Turn::Pending) => false,
            Ok(Turn::Ready(got)) => {
                let next = self.work.go_on(rt, spool, &mut self.task, got);
                self.take_up(next);
                true
            }
            Err(Lost) => {
                self.state = State::Finished;
                true
            }
        }
    }

    // Takes up the call of what the task waits for next. A task that is done or lost is finished.
    fn take_up(&mut self, next: Result<Option<Need>, Lost>)
        requires room { HasRoom self.old.meeting }
        ensures same { (self.new.task ≡ self.old.task) × (self.new.work ≡ self.old.work) }
        ensures room { HasRoom self.new.meeting }
        ensures taken { HasTakenUp next self.new.state self.new.meeting }
    {
        match next {
            Ok(Some(need)) => {
                self.meeting.take_up(need);
                self.state = State::Waits;
            }
            Ok(None) => self.state = State::Finished,
            Err(Lost) => self.state = State::Finished,
        }
    }
}
