//! The parts of an AFTER list, before their names are looked up (`specs/Form.antt`). Clauses cite `specs/Operand.antt` and
//! `specs/Fault.antt`.

ghost use Rattle.std.specs.Prelude.{◌≡◌, map, not, option_map};
ghost use Rattle.std.specs.List.{list_any};
ghost use Rattle.std.specs.Str.{bytes_eq};
ghost use Rattle.mv_deck.specs.declared.form.Part.{Part};
ghost use Rattle.mv_deck.specs.Fault.{has_double as doubles, repeats_first as doubles_first, accepts_no_code as has_no_code};
ghost use Rattle.mv_deck.specs.Form.{part_data, bytes_behind};
ghost use Rattle.mv_deck.specs.Operand.{is_name as names_job};

use crate::form::Part;
use crate::operand::{code, is_name};

/// Returns whether the name of a part is not the name of a job.
pub(crate) fn has_bad_name(parts: &[Part]) -> bool
    ensures { result ≡ list_any (λ (p : Part). not (names_job p.name.now)) parts.now }
{
    parts.iter().any(|part| !is_name(part.name))
}

/// Returns whether a part has an invalid accepted code.
pub(crate) fn has_bad_code(parts: &[Part]) -> bool
    ensures { result ≡ list_any (λ (p : Part). has_no_code (option_map bytes_behind p.most)) parts.now }
{
    parts.iter().any(|part| accepts_no_code(part.most))
}

fn accepts_no_code(most: Option<&[u8]>) -> bool
    ensures { result ≡ has_no_code (option_map bytes_behind most.entry) }
{
    match most {
        Some(text) => code(text).is_none(),
        None => false,
    }
}

/// Returns whether two parts have the same name.
pub(crate) fn has_double(parts: &[Part]) -> bool
    ensures { result ≡ doubles (map part_data parts.now) }
{
    for place in 0..parts.len() {
        if repeats_first(&parts[place..]) {
            return true;
        }
    }
    false
}

// Whether a later part has the name of the first.
fn repeats_first(parts: &[Part]) -> bool
    ensures { result ≡ doubles_first (map part_data parts.now) }
{
    match parts.split_first() {
        Some((first, behind)) => names(behind, first.name),
        None => false,
    }
}

// Whether a part has this name.
fn names(parts: &[Part], name: &[u8]) -> bool
    ensures { result ≡ list_any (λ (p : Part). bytes_eq p.name.now name.now) parts.now }
{
    parts.iter().any(|part| part.name == name)
}
