//! The jobs so far by their names (`specs/Names.antt`). The time of a look-up does not grow with their number.

ghost use Rattle.std.specs.Prelude.{◌≡◌, None, Some, List, ℕ, OnOk, IfOk, map, is_none, option_map, if◌then◌else◌};
ghost use Rattle.std.specs.List.{list_any};
ghost use Rattle.std.specs.Str.{bytes_eq};
ghost use Rattle.mv_deck.specs.declared.form.Part.{Part};
ghost use Rattle.mv_deck.specs.Deck.{most_of as most_by_code};
ghost use Rattle.mv_deck.specs.Form.{part_data, bytes_behind};
ghost use Rattle.mv_deck.specs.Names.{place_in, after_in};

use crate::After;
use crate::form::Part;
use crate::operand::code;
use std::alloc::{AllocError, AllocFailed, Global};
use std::collections::HashMap;

/// The places of jobs in a deck, by the jobs' names, which are borrowed from the text.
#[derive(Drop)]
pub(crate) struct Names<'a> {
    places: HashMap<&'a [u8], u32>,
}

impl<'a> Names<'a> {
    pub(crate) fn new(alloc: Global) -> Self
        ensures { (name : List ℕ) → place_in result name ≡ None }
    {
        Names {
            places: HashMap::new(alloc),
        }
    }

    /// Returns the place of the job of this name, if there is one.
    pub(crate) fn place(&self, name: &'a [u8]) -> Option<u32>
        ensures { result ≡ place_in self.now name.now }
    {
        self.places.get(&name).copied()
    }

    /// Returns whether a part names no job.
    pub(crate) fn lacks_one(&self, parts: &[Part<'a>]) -> bool
        ensures { result ≡ list_any (λ (p : Part). is_none (place_in self.now p.name.now)) parts.now }
    {
        parts.iter().any(|part| self.place(part.name).is_none())
    }

    /// Returns the jobs that the parts name, with the end codes that they accept.
    pub(crate) fn after(&self, alloc: Global, parts: &[Part<'a>]) -> Result<Vec<After>, AllocError>
        ensures { IfOk result (λ after. after.items ≡ map (λ (p : Part). after_in self.now (part_data p)) parts.now) }
    {
        let mut after = Vec::new(alloc);
        for part in parts {
            after.push(After {
                job: self.place(part.name).unwrap_or(0),
                most: most_of(part.most),
            })?;
        }
        Ok(after)
    }

    /// Gives this name the place.
    pub(crate) fn give(
        &mut self,
        name: &'a [u8],
        place: u32,
    ) -> Result<(), AllocFailed<(&'a [u8], u32)>>
        ensures { OnOk result ((other : List ℕ)
            → place_in self.new other ≡ (if bytes_eq name.now other then Some place else place_in self.old other)) }
    {
        self.places.insert(name, place)?;
        Ok(())
    }
}

// The highest end code that a part accepts, given the text of its code.
fn most_of(most: Option<&[u8]>) -> u32
    ensures { result ≡ most_by_code (option_map bytes_behind most.entry) }
{
    match most {
        Some(text) => code(text).unwrap_or(0),
        None => 0,
    }
}
