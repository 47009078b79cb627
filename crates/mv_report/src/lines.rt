//! The lines that a job writes, and how each line is made. `specs/Outcome.antt` defines them.

ghost use Rattle.std.specs.Prelude.{◌≡◌, IfOk};
ghost use Rattle.mv_report.specs.Outcome.{print_line, scan_line};

use mv_deck::Text;
use mv_io::NoMemory;
use mv_line::push_number;
use std::alloc::Global;
use std::marker::Model;

/// The lines that a job wrote, each as it appears in the report: with `| ` at its front, and without an LF.
#[derive(Debug, Drop)]
pub struct Lines {
    pub texts: Vec<Text>,
}

impl Model for Lines {
    ghost use Rattle.std.specs.Prelude.{List, ℕ};

    ghost Value = { List (List ℕ) };

    ghost view = { λ l. l.texts.items };
}

/// Returns the line that a PRINT of this text writes.
///
/// # Errors
///
/// `NoMemory` if there is not enough memory for the line.
pub fn print_line(alloc: Global, text: &Text) -> Result<Text, NoMemory>
    ensures line { IfOk result (λ line. line ≡ print_line text.now) }
{
    let mut bytes = Vec::with_capacity(alloc, 2 + text.bytes.len())?;
    bytes.extend_from_slice(b"| ")?;
    bytes.extend_from_slice(&text.bytes)?;
    Ok(Text { bytes })
}

/// Returns the line that a SCAN of this volume writes; `steady` says whether both reads returned the same number.
///
/// # Errors
///
/// `NoMemory` if there is not enough memory for the line.
pub fn scan_line(alloc: Global, volume: u32, steady: bool) -> Result<Text, NoMemory>
    ensures line { IfOk result (λ line. line ≡ scan_line volume steady) }
{
    let mut bytes = Vec::new(alloc);
    push_number(&mut bytes, b"| SCAN ", u64::from(volume))?;
    if steady {
        bytes.extend_from_slice(b" STEADY")?;
    } else {
        bytes.extend_from_slice(b" UNSTEADY")?;
    }
    Ok(Text { bytes })
}
