//! Scripts whose tasks meet in an order that the schedule decides. Their possible answers were worked out by hand.

use super::*;

// Runs a script whose tasks' order the schedule decides, and returns its answers. Its journal has this piece.
fn answers_of<X: Abort + AllocGlobal + Threads + Wait + Clock + Sync>(
    rt: &X,
    script: &str,
    piece: &str,
) -> String {
    let mut on = streams_over(rt, script.as_bytes());
    let status = run(rt, "script", &mut on);
    assert_exit(rt, status, 0, "script");
    assert_journal(rt, on.journal.bytes(), piece);
    text_of(rt, on.report.bytes())
}

fn text_of<X: Abort + AllocGlobal>(rt: &X, bytes: &[u8]) -> String {
    let Ok(text) = std::str::from_utf8(bytes) else {
        panic!(rt; "no text")
    };
    made(rt, String::from_str(rt.alloc(), text))
}

// Two tasks wait for each other's posts, and one of them may wait for the latch that the other holds.
const PAIR: &str = "\
SCRIPT 2
ECB 1
ECB 0
TASK
OBTAIN 0 1 X COND
POST 0 3
WAIT 1 1
FREE 1 U
TASK
WAIT 1 0
POST 1 4
OBTAIN 0 2 X WAIT
END
";

#[test]
fn two_tasks_wait_for_each_other(rt: HostRuntime) {
    let answers = answers_of(&rt, PAIR, " E0 2 SETTLE = COMPLETE 3\n");
    assert!(rt; answers.starts_with("0 1 GRANTED\n0 2 "));
    assert!(rt; answers.contains("\n0 3 WAITED C4\n0 4 RELEASED "));
    assert!(rt; answers.contains("\n1 1 WAITED C3\n1 2 "));
    assert!(rt; answers.ends_with("\n1 3 GRANTED\n"));
}

// A task waits for a block that another task posts.
const ONE_WAITS: &str = "\
SCRIPT 2
ECB 0
TASK
WAIT 1 0
TASK
POST 0 3
END
";

#[test]
fn a_task_waits_for_another(rt: HostRuntime) {
    let answers = answers_of(&rt, ONE_WAITS, " E0 2 SETTLE = COMPLETE 3\n");
    let expected = if answers.ends_with("WOKE\n") {
        "0 1 WAITED C3\n1 1 WOKE\n"
    } else {
        "0 1 WAITED C3\n1 1 POSTED\n"
    };
    assert_text(&rt, answers.as_bytes(), expected, ONE_WAITS);
}

// A task pauses, and another task releases the element once it is in use.
const ONE_PAUSES: &str = "\
SCRIPT 2
ECB 1
TASK
ALLOC
POST 0 1
PAUSE 0.0
TASK
WAIT 1 0
RELEASE 0.0 9
END
";

#[test]
fn a_pause_is_given_the_code_of_its_release(rt: HostRuntime) {
    let answers = answers_of(&rt, ONE_PAUSES, " = GIVEN 9 1\n");
    assert!(rt; answers.starts_with("0 1 TOKEN 0.0\n0 2 "));
    assert!(rt; answers.contains("\n0 3 GIVEN 9 0.1\n1 1 WAITED C1\n1 2 "));
    assert!(rt; answers.ends_with(" EARLY\n") || answers.ends_with(" WOKE\n"));
}

// Of sixteen posts of one block by two tasks one is taken, and every other one gets its code.
const POSTS_OF_ONE_BLOCK: &str = "\
SCRIPT 2
ECB 0
TASK
POST 0 1
POST 0 2
POST 0 3
POST 0 4
POST 0 5
POST 0 6
POST 0 7
POST 0 8
TASK
POST 0 11
POST 0 12
POST 0 13
POST 0 14
POST 0 15
POST 0 16
POST 0 17
POST 0 18
END
";

// Asserts that a text has this piece this many times.
fn assert_times<X: Abort>(rt: &X, text: &str, piece: &str, times: u64) {
    assert_count(rt, text.matches(piece).count() as u64, times, piece);
}

#[test]
fn one_of_sixteen_posts_is_taken(rt: HostRuntime) {
    let answers = answers_of(&rt, POSTS_OF_ONE_BLOCK, " = POSTED\n");
    let told = if answers.starts_with("0 1 POSTED\n") {
        " ALREADY 1\n"
    } else {
        " ALREADY 11\n"
    };
    assert_times(&rt, &answers, " POSTED\n", 1);
    assert_times(&rt, &answers, told, 15);
}

// The owner of a table takes the events that two other tasks post.
const EVENTS_OF_TWO: &str = "\
SCRIPT 3
ECB 0
ECB 0
ECB 0
ECB 0
TABLE 0 0 0 0 2 2
TASK
EVNEXT 0
EVNEXT 1
TASK
EVPOST 0 5
TASK
EVPOST 1 6
END
";

#[test]
fn events_come_in_the_order_of_their_completion(rt: HostRuntime) {
    let answers = answers_of(&rt, EVENTS_OF_TWO, " V0 0 READ = VALUE 0\n");
    let told = if answers.ends_with("1 1 ENTERED 0\n2 1 ENTERED 1\n") {
        "0 1 EVENT 0 1073741829\n0 2 EVENT 1 1073741830\n1 1 "
    } else {
        "0 1 EVENT 1 1073741830\n0 2 EVENT 0 1073741829\n1 1 "
    };
    assert!(rt; answers.starts_with(told));
}
