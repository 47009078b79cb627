//! The summary of a load. `specs/Summary.antt` defines its bytes.

ghost use Rattle.std.specs.Prelude.{◌≡◌, length, All, IfOk};
ghost use Rattle.mv_deck.specs.Operand.{volume_count};
ghost use Rattle.mv_report.specs.EndCode.{IsEndCode};
ghost use Rattle.mv_report.specs.Summary.{summary_text};

use crate::report::push_closing;
use mv_io::NoMemory;
use mv_line::push_number;
use std::alloc::Global;

/// Returns the summary of a load that has these ends on `initiators` initiators, and left these numbers in the eight volumes.
///
/// Ends are end codes as for `write_report`. The time is linear in the jobs.
///
/// # Errors
///
/// `NoMemory` if there is not enough memory for the text.
pub fn write_summary(
    alloc: Global,
    jobs: u32,
    initiators: u32,
    ends: &[u32],
    volumes: &[u32],
) -> Result<Vec<u8>, NoMemory>
    requires one_end_per_job { length ends.now ≡ jobs }
    requires eight_volumes { length volumes.now ≡ volume_count }
    requires end_codes { All IsEndCode ends.now }
    ensures text { IfOk result (λ text. text.items ≡ summary_text jobs initiators ends.now volumes.now) }
{
    let mut out = Vec::new(alloc);
    push_number(&mut out, b"LOAD ", u64::from(jobs))?;
    push_number(&mut out, b" ", u64::from(initiators))?;
    out.push(b'\n')?;
    push_closing(&mut out, jobs as usize, ends, volumes)?;
    Ok(out)
}
