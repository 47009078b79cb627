//! Scripts that are run on one thread as far as their tasks go on: the answers so far, and who waits for what. Expected texts are worked
//! out by hand.

ghost use Rattle.std.specs.Prelude.{◌<◌, ◌^◌, ◌-◌, length};

use mv_pollscript::{RunSoFar, Standing, run_so_far, task_standing, write_waits};
use mv_runscript::write_answer_lists;
use mv_script::read_script;
use std::process::Abort;
use std::sync::Wait;
use std::time::Clock;

// The answers of a script in the round order of this seed, and what its tasks wait for.
fn texts_of<X: Abort + AllocGlobal + Wait + Clock>(
    rt: &X,
    text: &[u8],
    seed: u32,
) -> (Vec<u8>, Vec<u8>)
    requires { length text.now < 2 ^ 32 - 1 }
{
    let Ok(script) = read_script(rt.alloc(), text) else {
        panic!(rt; "no script")
    };
    let run = run_so_far(rt, rt.alloc(), &script, seed).expect(rt, "memory for a run");
    let answers = write_answer_lists(rt.alloc(), &run.answers).expect(rt, "memory for answers");
    let waits = write_waits(rt.alloc(), &script, &run).expect(rt, "memory for waits");
    (answers, waits)
}

fn assert_texts<X: Abort + AllocGlobal + Wait + Clock>(
    rt: &X,
    text: &[u8],
    seed: u32,
    answers: &[u8],
    waits: &[u8],
)
    requires { length text.now < 2 ^ 32 - 1 }
{
    let (own_answers, own_waits) = texts_of(rt, text, seed);
    assert!(rt; own_answers.as_slice() == answers);
    assert!(rt; own_waits.as_slice() == waits);
}

// Task 0 holds the latch that task 1 asks for, and waits for the block that task 1 would post after that.
const HUNG: &[u8] = b"\
SCRIPT 2
ECB 0
ECB 1
TASK
OBTAIN 0 1 X WAIT
POST 1 3
WAIT 1 0
FREE 1 U
TASK
WAIT 1 1
OBTAIN 0 2 X WAIT
FREE 1 U
POST 0 4
END
";

#[test]
fn a_latch_and_a_block_are_waited_for(rt: HostRuntime) {
    let answers = b"0 1 GRANTED\n0 2 POSTED\n1 1 WAITED C3\n";
    let waits = b"\
task 0 waits at its call 3 for block 0, which task 1 would post at its call 4
task 1 waits at its call 2 for latch 0, which task 0 holds
";
    assert_texts(&rt, HUNG, 0, answers, waits);
}

// The script of the README. By seed 1 the post comes before the wait.
const WAITS: &[u8] = b"\
SCRIPT 2
ECB 0
TASK
WAIT 1 0
CLEAR 0
TRYPOST 0 0 5
TASK
POST 0 3
END
";

#[test]
fn a_script_that_ends_waits_for_nothing(rt: HostRuntime) {
    let woken = b"0 1 WAITED C3\n0 2 WORD 1073741827\n0 3 MOVED 4 0\n1 1 WOKE\n";
    let posted = b"0 1 WAITED C3\n0 2 WORD 1073741827\n0 3 MOVED 4 0\n1 1 POSTED\n";
    assert_texts(&rt, WAITS, 0, woken, b"");
    assert_texts(&rt, WAITS, 1, posted, b"");
}

// Two blocks of three, of which one is posted; and a pause.
const THREE: &[u8] = b"\
SCRIPT 3
ECB 0
ECB 0
ECB 0
ECB 2
TASK
WAIT 2 0 1 2
TASK
POST 1 7
ALLOC
PAUSE 4.0
TASK
WAIT 1 3
RELEASE 4.0 5
TRYPOST 2 1 5
END
";

#[test]
fn each_open_block_has_its_line(rt: HostRuntime) {
    let answers = b"1 1 WOKE\n1 2 TOKEN 4.0\n";
    let waits = b"\
task 0 waits at its call 1 for block 0, which no call that is left names in a post
task 0 waits at its call 1 for block 2, which task 2 would post at its call 3
task 1 waits at its call 3 for a release of element 4, which task 2 would release at its call 2
task 2 waits at its call 1 for block 3, which no call that is left names in a post
";
    assert_texts(&rt, THREE, 0, answers, waits);
}

const PAUSING: &[u8] = b"\
SCRIPT 2
TASK
ALLOC
TRANSFER 0.0 0.0 5
TASK
READ 0
END
";

#[test]
fn a_task_stops_before_a_transfer_that_pauses(rt: HostRuntime) {
    let waits = b"\
task 0 stops before its call 2, which is not made here: a TRANSFER that pauses, an EVPOST or an EVNEXT
";
    assert_texts(&rt, PAUSING, 3, b"0 1 TOKEN 0.0\n1 1 VALUE 0\n", waits);
}

#[test]
fn a_task_is_finished_or_waits_or_stops(rt: HostRuntime) {
    let Ok(script) = read_script(rt.alloc(), PAUSING) else {
        panic!(rt; "no script")
    };
    let run = run_so_far(&rt, rt.alloc(), &script, 0).expect(&rt, "memory for a run");
    assert!(rt; script.tasks.len() == 2);
    assert!(rt; task_standing(&script, &run, 0) == Standing::Stopped);
    assert!(rt; task_standing(&script, &run, 1) == Standing::Finished);
}

// Whether the first event of a run is one of this task. If each task begins with a READ of one volume, this is the task that was polled
// first: the task of the seed in the first run, and the one after it in a second run.
fn begins_with(run: &RunSoFar, task: u32) -> bool {
    matches!(run.journal.first(), Some(entry) if entry.caller == task)
}

// Both tasks wait for ever.
const STUCK: &[u8] = b"\
SCRIPT 2
ECB 0
ECB 1
TASK
READ 0
WAIT 1 0
TASK
READ 0
WAIT 1 1
END
";

#[test]
fn the_first_run_is_returned(rt: HostRuntime) {
    let Ok(script) = read_script(rt.alloc(), STUCK) else {
        panic!(rt; "no script")
    };
    for seed in 0..4 {
        let run = run_so_far(&rt, rt.alloc(), &script, seed).expect(&rt, "memory for a run");
        assert!(rt; begins_with(&run, seed % 2));
    }
}

// Task 6 posts block 5, and each other task waits for its block and posts the one below.
const CHAIN: &[u8] = b"\
SCRIPT 7
ECB 0
ECB 1
ECB 2
ECB 3
ECB 4
ECB 5
TASK
READ 0
WAIT 1 0
TASK
READ 0
WAIT 1 1
POST 0 7
TASK
READ 0
WAIT 1 2
POST 1 7
TASK
READ 0
WAIT 1 3
POST 2 7
TASK
READ 0
WAIT 1 4
POST 3 7
TASK
READ 0
WAIT 1 5
POST 4 7
TASK
READ 0
POST 5 7
END
";

// The polls of these runs pass the highest number of a `u32`, and 2^32 is no multiple of 7.
#[test]
fn no_task_is_left_out_at_the_highest_seeds(rt: HostRuntime) {
    let Ok(script) = read_script(rt.alloc(), CHAIN) else {
        panic!(rt; "no script")
    };
    assert!(rt; script.tasks.len() == 7);
    for back in 0..21 {
        let seed = u32::MAX - back;
        let run = run_so_far(&rt, rt.alloc(), &script, seed).expect(&rt, "memory for a run");
        assert!(rt; begins_with(&run, seed % 7));
        for task in 0..7 {
            assert!(rt; task_standing(&script, &run, task) == Standing::Finished);
        }
    }
}
