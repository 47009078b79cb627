//! The judge. Its clauses cite specs/Verdict of mv_oracle.

ghost use Rattle.std.specs.Prelude.{◌≡◌};
ghost use Rattle.mv_oracle.specs.Verdict.{IsVerdictOn};

use mv_oracle::{Verdict, judge};
use std::alloc::Global;

/// Judges the text of a journal, writes the verdict, and returns its status. C passes nothing for the allocator:
///
/// ```c
/// uint32_t tongsthyme_judge(const uint8_t *journal, size_t length, struct tongsthyme_verdict *verdict);
/// ```
#[unsafe(no_mangle)]
pub extern "C" fn tongsthyme_judge(alloc: Global, journal: &[u8], verdict: &mut Verdict) -> u32
    ensures status { result ≡ verdict.new.status }
    ensures verdict { IsVerdictOn journal.now verdict.new }
{
    judge(alloc, journal, verdict)
}
