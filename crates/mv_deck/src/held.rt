//! The latches that the last job holds (`specs/Held.antt`).

ghost use Rattle.std.specs.Prelude.{◌≡◌, ◌≤◌, ◌++◌, ◌∷◌, List, [], map, Option, None, drop, set, slice_index_or, is_some};
ghost use Rattle.std.specs.List.{list_any};
ghost use Rattle.mv_deck.specs.declared.deck.Step.{Step};
ghost use Rattle.mv_deck.specs.Held.{held, latches, is_out_of_order as stands_out_of_order, lacks_latch as stands_without_latch};
ghost use Rattle.mv_deck.specs.Held.{HasNumberInRange};
ghost use Rattle.mv_deck.specs.Operand.{highest_latch};

use crate::Step;
use crate::operand::VOLUME_COUNT;
use mv_latch::Mode;

/// The mode in which each of the eight latches is held, if it is held.
#[derive(Clone, Copy, Drop)]
pub(crate) struct Held {
    modes: [Option<Mode>; VOLUME_COUNT],
}

impl Held {
    pub(crate) fn none() -> Self
        ensures { result.modes ≡ map (held []) latches }
    {
        Held {
            modes: [None; VOLUME_COUNT],
        }
    }

    /// Returns whether a step uses a latch that is not above all that are held.
    pub(crate) fn is_out_of_order(&self, step: &Step) -> bool
        requires { HasNumberInRange step.now }
        ensures { (done : List Step) → self.now.modes ≡ map (held done) latches → result ≡ stands_out_of_order done step.now }
    {
        match step {
            Step::Use(latch, _) => self.holds_from(*latch),
            Step::Print(_)
            | Step::Free(_)
            | Step::Count(_, _)
            | Step::Scan(_)
            | Step::Abend(_)
            | Step::Return(_) => false,
        }
    }

    /// Returns whether a step lacks the latch that it needs.
    pub(crate) fn lacks_latch(&self, step: &Step) -> bool
        requires { HasNumberInRange step.now }
        ensures { (done : List Step) → self.now.modes ≡ map (held done) latches → result ≡ stands_without_latch done step.now }
    {
        match step {
            Step::Free(latch) => self.mode(*latch).is_none(),
            Step::Count(volume, _) => !matches!(self.mode(*volume), Some(Mode::Exclusive)),
            Step::Scan(volume) => self.mode(*volume).is_none(),
            Step::Print(_) | Step::Use(_, _) | Step::Abend(_) | Step::Return(_) => false,
        }
    }

    /// Updates the held latches after a step.
    pub(crate) fn follow(&mut self, step: &Step)
        requires { HasNumberInRange step.now }
        ensures { (done : List Step) → self.old.modes ≡ map (held done) latches
            → self.new.modes ≡ map (held (done ++ step.now ∷ [])) latches }
    {
        match step {
            Step::Use(latch, mode) => self.set(*latch, Some(*mode)),
            Step::Free(latch) => self.set(*latch, None),
            Step::Print(_) | Step::Count(_, _) | Step::Scan(_) | Step::Abend(_) | Step::Return(_) =>
                {}
        }
    }

    fn mode(&self, latch: u32) -> Option<Mode>
        requires { latch ≤ highest_latch }
        ensures { result ≡ slice_index_or self.now.modes latch None }
    {
        self.modes[latch as usize]
    }

    // Whether this latch or one above it is held.
    fn holds_from(&self, latch: u32) -> bool
        requires { latch ≤ highest_latch }
        ensures { result ≡ list_any (λ (m : Option Mode). is_some m) (drop latch self.now.modes) }
    {
        any_held(&self.modes[latch as usize..])
    }

    fn set(&mut self, latch: u32, mode: Option<Mode>)
        requires { latch ≤ highest_latch }
        ensures { self.new.modes ≡ set self.old.modes latch mode }
    {
        self.modes[latch as usize] = mode;
    }
}

fn any_held(modes: &[Option<Mode>]) -> bool
    ensures { result ≡ list_any (λ (m : Option Mode). is_some m) modes.now }
{
    modes.iter().any(|mode| mode.is_some())
}
