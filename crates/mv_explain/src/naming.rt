//! The explanation of any input: `specs/Explained.antt`.

ghost use Rattle.std.specs.Prelude.{◌≡◌, ◌<◌, ◌-◌, ◌^◌, ◌++◌, length, IfOk};
ghost use Rattle.mv_diagnostics.specs.Deck.{deck_text as text_of_deck};
ghost use Rattle.mv_diagnostics.specs.Script.{script_text as text_of_script};
ghost use Rattle.mv_explain.specs.Explained.{IsExplained};

use crate::journals::journal_text;
use crate::sentences::{NOTHING, OTHER};
use crate::subject::{Subject, subject_of};
use mv_diagnostics::{push_deck, push_script};
use mv_io::NoMemory;
use std::alloc::Global;

// The explanation of a deck behind these words.
fn deck_behind(alloc: Global, words: &[u8], bytes: &[u8]) -> Result<Vec<u8>, NoMemory>
    requires { length bytes.now < 2 ^ 32 - 1 }
    ensures { IfOk result (λ text. text.items ≡ words.now ++ text_of_deck bytes.now) }
{
    let mut out = Vec::new(alloc);
    out.extend_from_slice(words)?;
    push_deck(&mut out, alloc, bytes)?;
    Ok(out)
}

// The explanation of a script.
fn script_text(alloc: Global, bytes: &[u8]) -> Result<Vec<u8>, NoMemory>
    requires { length bytes.now < 2 ^ 32 - 1 }
    ensures { IfOk result (λ text. text.items ≡ text_of_script bytes.now) }
{
    let mut out = Vec::new(alloc);
    push_script(&mut out, alloc, bytes)?;
    Ok(out)
}

/// The explanation of these bytes.
pub(crate) fn explanation_of(alloc: Global, bytes: &[u8]) -> Result<Vec<u8>, NoMemory>
    requires { length bytes.now < 2 ^ 32 - 1 }
    ensures { IfOk result (λ text. IsExplained bytes.now text.items) }
{
    match subject_of(bytes) {
        Subject::Nothing => Ok(Vec::from_slice(alloc, NOTHING)?),
        Subject::Deck => deck_behind(alloc, b"", bytes),
        Subject::Other => deck_behind(alloc, OTHER, bytes),
        Subject::Script => script_text(alloc, bytes),
        Subject::Journal => journal_text(alloc, bytes),
    }
}
