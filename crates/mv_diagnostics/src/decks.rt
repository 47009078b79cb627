//! What is said of a deck: `specs/Deck.antt`.

ghost use Rattle.std.specs.Prelude.{◌≡◌, ◌<◌, ◌≤◌, ◌-◌, ◌^◌, ◌++◌, length, None, OnOk, IfOk};
ghost use Rattle.mv_deck.specs.Deck.{deck_data, deck_of};
ghost use Rattle.mv_deck.specs.Fault.{first_fault};
ghost use Rattle.mv_deck.specs.Weight.{heaviest, most_initiators, weight};
ghost use Rattle.mv_diagnostics.specs.Deck.{can_text, deck_text, found_text, good_text, run_text, runs_text, fault_of_deck_text};

use crate::held::push_held_of_fault;
use crate::limits::CARD_LIMIT;
use crate::quoting::push_fault;
use crate::sentences::{
    CAN_RUN, GOOD_DECK, INITIATORS, LONG_DECK, RUN_DECK, TOO_HEAVY_FROM, WEIGHT, deck_sentence,
};
use crate::weights::weight_of;
use mv_deck::{Deck, DeckFault, MOST_INITIATORS, read_deck};
use mv_io::NoMemory;
use mv_line::push_number;
use std::alloc::Global;

// Says what is wrong with a deck.
fn push_deck_fault(
    out: &mut Vec<u8>,
    alloc: Global,
    bytes: &[u8],
    fault: DeckFault,
) -> Result<(), NoMemory>
    requires { length bytes.now < 2 ^ 32 - 1 }
    ensures { OnOk result (out.new.items ≡ out.old.items ++ fault_of_deck_text bytes.now fault) }
{
    push_fault(out, b"deck", bytes, fault, deck_sentence(fault.kind))?;
    push_held_of_fault(out, alloc, bytes, fault)
}

// The first fault of a deck for so many initiators, if it has one.
fn fault_of(alloc: Global, bytes: &[u8], initiators: u32) -> Result<Option<DeckFault>, NoMemory>
    requires short { length bytes.now < 2 ^ 32 - 1 }
    requires initiators { (1 ≤ initiators) × (initiators ≤ most_initiators) }
    ensures { IfOk result (λ fault. fault ≡ first_fault bytes.now initiators) }
{
    match read_deck(alloc, bytes, initiators) {
        Ok(_) => Ok(None),
        Err(refusal) => Ok(Some(refusal.fault()?)),
    }
}

// A deck without fault.
fn good_deck(alloc: Global, bytes: &[u8]) -> Result<Deck, NoMemory>
    requires short { length bytes.now < 2 ^ 32 - 1 }
    requires sound { first_fault bytes.now 1 ≡ None }
    ensures deck { IfOk result (λ deck. deck_data deck ≡ deck_of bytes.now) }
    ensures light { IfOk result (λ deck. weight (deck_data deck) 1 ≤ heaviest) }
{
    match read_deck(alloc, bytes, 1) {
        Ok(deck) => Ok(deck),
        Err(refusal) => match refusal.fault() {
            // The deck has none.
            Ok(_) => unreachable!(),
            Err(no_memory) => Err(no_memory),
        },
    }
}

// Says whether a deck can be run, by its first fault.
fn push_can(out: &mut Vec<u8>, fault: Option<DeckFault>) -> Result<(), NoMemory>
    ensures { OnOk result (out.new.items ≡ out.old.items ++ can_text fault) }
{
    match fault {
        None => {
            out.extend_from_slice(CAN_RUN)?;
            Ok(())
        }
        Some(fault) => {
            push_number(out, TOO_HEAVY_FROM, u64::from(fault.line))?;
            out.push(b'\n')?;
            Ok(())
        }
    }
}

// Says which weight a deck has for this many initiators, and whether they can run it.
#[tactic(auto, unfolding(crate::specs::Deck::run_text))]
fn push_run(
    out: &mut Vec<u8>,
    initiators: u32,
    weight: u64,
    fault: Option<DeckFault>,
) -> Result<(), NoMemory>
    ensures { OnOk result (out.new.items ≡ out.old.items ++ run_text initiators weight fault) }
{
    push_number(out, INITIATORS, u64::from(initiators))?;
    push_number(out, WEIGHT, weight)?;
    push_can(out, fault)
}

// Says the same of each number of initiators from this one on.
#[tactic(auto, using(crate::proofs::Initiators::runs_end, crate::proofs::Initiators::runs_step))]
fn push_runs(
    out: &mut Vec<u8>,
    alloc: Global,
    bytes: &[u8],
    deck: &Deck,
    from: u32,
) -> Result<(), NoMemory>
    requires short { length bytes.now < 2 ^ 32 - 1 }
    requires deck { deck_data deck.now ≡ deck_of bytes.now }
    requires light { weight (deck_data deck.now) 1 ≤ heaviest }
    requires from { (1 ≤ from) × (from ≤ 9) }
    ensures { OnOk result (out.new.items ≡ out.old.items ++ runs_text bytes.now from (9 - from)) }
{
    if from > MOST_INITIATORS {
        return Ok(());
    }
    let fault = fault_of(alloc, bytes, from)?;
    push_run(out, from, weight_of(deck, from), fault)?;
    push_runs(out, alloc, bytes, deck, from + 1)
}

// Says what is in a deck without fault.
#[tactic(auto, unfolding(crate::specs::Deck::good_text))]
fn push_good(out: &mut Vec<u8>, alloc: Global, bytes: &[u8]) -> Result<(), NoMemory>
    requires short { length bytes.now < 2 ^ 32 - 1 }
    requires sound { first_fault bytes.now 1 ≡ None }
    ensures { OnOk result (out.new.items ≡ out.old.items ++ good_text bytes.now) }
{
    let deck = good_deck(alloc, bytes)?;
    push_number(out, GOOD_DECK, deck.jobs.len() as u64)?;
    out.push(b'\n')?;
    push_runs(out, alloc, bytes, &deck, 1)?;
    out.extend_from_slice(RUN_DECK)?;
    Ok(())
}

// What is said of a deck by its first fault.
#[tactic(auto, unfolding(crate::specs::Deck::found_text))]
fn push_found(
    out: &mut Vec<u8>,
    alloc: Global,
    bytes: &[u8],
    fault: Option<DeckFault>,
) -> Result<(), NoMemory>
    requires short { length bytes.now < 2 ^ 32 - 1 }
    requires first { fault ≡ first_fault bytes.now 1 }
    ensures { OnOk result (out.new.items ≡ out.old.items ++ found_text bytes.now fault) }
{
    match fault {
        None => push_good(out, alloc, bytes),
        Some(fault) => push_deck_fault(out, alloc, bytes, fault),
    }
}

/// What is said of a deck.
#[tactic(auto, unfolding(crate::specs::Deck::deck_text))]
pub fn push_deck(out: &mut Vec<u8>, alloc: Global, bytes: &[u8]) -> Result<(), NoMemory>
    requires { length bytes.now < 2 ^ 32 - 1 }
    ensures { OnOk result (out.new.items ≡ out.old.items ++ deck_text bytes.now) }
{
    if bytes.len() > CARD_LIMIT {
        out.extend_from_slice(LONG_DECK)?;
        return Ok(());
    }
    let fault = fault_of(alloc, bytes, 1)?;
    push_found(out, alloc, bytes, fault)
}
