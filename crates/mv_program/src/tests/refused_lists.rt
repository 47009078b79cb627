//! Lists and a text that the library's calls refuse, each with its refusal, since no clause distinguishes a refusal from
//! running out of memory. The list has two entries, whose values were worked out by hand.

ghost use Rattle.std.specs.Prelude.{◌≤◌, IsTrue, All};
ghost use Rattle.mv_config.specs.Limits.{highest_place};

use super::*;
use mv_calls::{CallsRefusal, replay_calls};
use mv_entrytext::{Journal, TextFault, TextRefusal, read_journal};
use mv_machine::{Entry, HIGHEST_PLACE, Illegal, ReplayRefusal, replay};

// A post of a block, and a test of it: two calls of one task.
const TWO_CALLS: &[u8] = b"\
JOURNAL 2
CALLERS 1
ELEMENTS 1
VOLUMES 1
LATCHES 1
QUOTA 1 0
BUDGET 2
ECB 0
EVENTS
0.0 E0 0 POST 3 = POSTED
0.1 E0 1 TEST = WORD 1073741827
END 2
";

fn are_low(entries: &[Entry]) -> bool
    ensures { IsTrue result → All (λ e. e.place ≤ highest_place) entries.now }
{
    entries.iter().all(|e| e.place <= HIGHEST_PLACE)
}

fn two_calls(rt: &impl Abort, alloc: Global) -> Journal {
    let Ok(journal) = read_journal(alloc, TWO_CALLS) else {
        panic!(rt; "no journal")
    };
    assert!(rt; journal.entries.len() == 2 && journal.calls.len() == 2);
    journal
}

// The text ends within its last line, the twelfth.
#[test]
fn a_text_that_is_cut_is_refused_there(rt: HostRuntime) {
    let cut = read_journal(rt.alloc(), &TWO_CALLS[..TWO_CALLS.len() - 1]);
    assert!(rt;
        matches!(
            cut,
            Err(TextRefusal::Fault(TextFault { line: 12, kind: 5 }))
        )
    );
}

// The second entry is of call 1, and not of call 7.
#[test]
fn a_list_is_refused_at_its_first_wrong_number(rt: HostRuntime) {
    let alloc = rt.alloc();
    let Journal {
        config,
        entries,
        ..
    } = two_calls(&rt, alloc);
    assert!(rt; are_low(&entries) && entries.len() == 2);
    let judged = replay_calls(alloc, &config, &entries, &[0, 7]);
    assert!(rt;
        matches!(
            judged,
            Err(CallsRefusal::Number {
                index: 1,
                kept: 7,
                machine: 1
            })
        )
    );
}

// The second entry is at place 1, and not 9.
#[test]
fn a_list_is_refused_at_its_first_illegal_entry(rt: HostRuntime) {
    let alloc = rt.alloc();
    let Journal {
        config,
        mut entries,
        ..
    } = two_calls(&rt, alloc);
    if let Some(entry) = entries.last_mut() {
        entry.place = 9;
    }
    assert!(rt; are_low(&entries) && entries.len() == 2);
    let judged = replay(alloc, &config, &entries);
    assert!(rt;
        matches!(
            judged,
            Err(ReplayRefusal::Illegal(Illegal {
                index: 1,
                kept: (9, _),
                machine: Some((1, _))
            }))
        )
    );
    let numbered = replay_calls(alloc, &config, &entries, &[0, 1]);
    assert!(rt;
        matches!(
            numbered,
            Err(CallsRefusal::Illegal(Illegal {
                index: 1,
                kept: (9, _),
                machine: Some((1, _))
            }))
        )
    );
}
