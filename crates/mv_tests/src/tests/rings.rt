//! A small executor on one thread. Eight tasks pass a post round a ring, and then releases. Each task is polled only after an
//! event has rung its key, or after it has made an event itself.

ghost use Rattle.std.specs.Prelude.{◌≡◌, ◌<◌, ◌≤◌, ◌++◌, [], ◌∷◌, length};
ghost use Rattle.std.specs.List.{AllByRecursion};
ghost use Rattle.mv_config.specs.Setup.{element_count};
ghost use Rattle.mv_calls.specs.Rest.{IsAtRest};
ghost use Rattle.mv_board.specs.Faces.{CallerFace, IsOf, AreFresh, AreInOrder};
ghost use Rattle.mv_polled.specs.Pausing.{IsPauseAt};
ghost use Rattle.mv_tests.specs.Rings.{MayGoOn};
ghost use Rattle.mv_polled.specs.Waiting.{IsWaitAt};

use super::polls::{a_wait, given, is_over, open, post, release_to, token};
use mv_machine::{OpenLog, replay};
use mv_pause::allocate;
use mv_polled::{PauseCall, WaitCall, rung};
use mv_wait::{Station, Task};
use std::alloc::Global;
use std::collections::VecDeque;
use std::process::Abort;
use std::sync::Wait;

// The last of the eight tasks.
const LAST: u32 = 7;

// How often the releases go round the ring.
const LAPS: u32 = 3;

// How many turns are enough.
const TURNS: u32 = 2000;

// A task with the call in which it waits; it has none once it is done.
#[derive(Drop)]
struct Runner {
    task: Task,
    wait: Option<WaitCall>,
    pause: Option<PauseCall>,
}

// A task at rest that is to wait for its block.
fn waiting(rt: &impl Abort, alloc: Global, station: &Station, task: Task) -> Runner
    requires task { IsOf station.now task }
    requires rest { IsAtRest task.log }
    requires number { task.number < 8 }
    requires left { 2 ≤ task.left }
    requires blocks { length station.now.config.owners ≡ 8 }
    ensures { MayGoOn station.now result.task result.wait result.pause }
{
    let call = a_wait(rt, alloc, station, &task, 1, &[task.number()]);
    Runner {
        task,
        wait: Some(call),
        pause: None,
    }
}

// A task at rest that is to pause with its element, which has this generation.
fn pausing(station: &Station, task: Task, generation: u32) -> Runner
    requires task { IsOf station.now task }
    requires rest { IsAtRest task.log }
    requires number { task.number < 8 }
    requires left { 2 ≤ task.left }
    requires elements { element_count station.now.config ≡ 8 }
    ensures { MayGoOn station.now result.task result.wait result.pause }
{
    let _config = station.config();
    let call = PauseCall::new(token(task.number(), generation));
    Runner {
        task,
        wait: None,
        pause: Some(call),
    }
}

// After its wait a task passes the post on, and the last task begins the releases.
#[tactic(auto, using(mv_wait::proofs::Compose::served))]
fn behind_wait<R: Abort + Wait>(station: &Station, rt: &R, mut task: Task) -> Runner
    requires task { IsOf station.now task }
    requires rest { IsAtRest task.log }
    requires blocks { length station.now.config.owners ≡ 8 }
    requires elements { element_count station.now.config ≡ 8 }
    ensures { MayGoOn station.now result.task result.wait result.pause }
{
    let own = task.number();
    assert!(rt; own <= LAST);
    if own < LAST {
        post(station, rt, &mut task, own + 1, 0);
    } else {
        release_to(station, rt, &mut task, token(0, 0), 0);
    }
    assert!(rt; task.left() >= 2);
    pausing(station, task, 0)
}

// After its pause a task passes the release on, and pauses again if another lap follows.
fn behind_pause<R: Abort + Wait>(station: &Station, rt: &R, mut task: Task, lap: u32) -> Runner
    requires task { IsOf station.now task }
    requires rest { IsAtRest task.log }
    requires elements { element_count station.now.config ≡ 8 }
    ensures { MayGoOn station.now result.task result.wait result.pause }
{
    let own = task.number();
    assert!(rt; own <= LAST && lap < LAPS);
    if own < LAST {
        release_to(station, rt, &mut task, token(own + 1, lap), lap);
    } else {
        release_to(station, rt, &mut task, token(0, lap + 1), lap + 1);
    }
    if lap + 1 < LAPS {
        assert!(rt; task.left() >= 2);
        return pausing(station, task, lap + 1);
    }
    Runner {
        task,
        wait: None,
        pause: None,
    }
}

// Polls the wait of a task, and goes on with the task if the wait is over.
fn poll_wait<R: Abort + Wait>(
    station: &Station,
    rt: &R,
    mut task: Task,
    mut call: WaitCall,
) -> Runner
    requires task { IsOf station.now task }
    requires stage { (t0 : CallerFace) × IsWaitAt station.now.config call t0 task }
    requires blocks { length station.now.config.owners ≡ 8 }
    requires elements { element_count station.now.config ≡ 8 }
    ensures { MayGoOn station.now result.task result.wait result.pause }
{
    if is_over(station, rt, &mut task, &mut call) {
        return behind_wait(station, rt, task);
    }
    Runner {
        task,
        wait: Some(call),
        pause: None,
    }
}

// Polls the pause of a task, and goes on with the task if the pause is over.
fn poll_pause<R: Abort + Wait>(
    station: &Station,
    rt: &R,
    mut task: Task,
    mut call: PauseCall,
) -> Runner
    requires task { IsOf station.now task }
    requires stage { (t0 : CallerFace) × IsPauseAt station.now.config call t0 task }
    requires elements { element_count station.now.config ≡ 8 }
    ensures { MayGoOn station.now result.task result.wait result.pause }
{
    if let Some(given) = given(station, rt, &mut task, &mut call) {
        return behind_pause(station, rt, task, given.code);
    }
    Runner {
        task,
        wait: None,
        pause: Some(call),
    }
}

// Polls the call in which a task waits, and goes on with the task if that is over.
fn go_on<R: Abort + Wait>(station: &Station, rt: &R, runner: Runner) -> Runner
    requires runner { MayGoOn station.now runner.task runner.wait runner.pause }
    requires blocks { length station.now.config.owners ≡ 8 }
    requires elements { element_count station.now.config ≡ 8 }
    ensures { MayGoOn station.now result.task result.wait result.pause }
{
    match runner {
        Runner {
            task,
            wait: Some(call),
            ..
        } => poll_wait(station, rt, task, call),
        Runner {
            task,
            pause: Some(call),
            ..
        } => poll_pause(station, rt, task, call),
        done => done,
    }
}

// A new task allocates its element, and the last one posts the first one's block.
#[tactic(auto, using(mv_wait::proofs::Compose::served))]
fn begin<R: Abort + Wait>(rt: &R, alloc: Global, station: &Station, mut task: Task) -> Runner
    requires task { IsOf station.now task }
    requires rest { IsAtRest task.log }
    requires blocks { length station.now.config.owners ≡ 8 }
    ensures { MayGoOn station.now result.task result.wait result.pause }
{
    assert!(rt; task.left() > 0);
    assert!(rt; allocate(station, rt, &mut task).is_ok());
    if task.number() == LAST {
        post(station, rt, &mut task, 0, 0);
    }
    assert!(rt; task.number() <= LAST && task.left() >= 2);
    waiting(rt, alloc, station, task)
}

// Appends one more task.
fn add<R: Abort>(rt: &R, runners: &mut VecDeque<Runner>, runner: Runner)
    ensures { runners.new.items ≡ runners.old.items ++ runner ∷ [] }
{
    if runners.push_back(runner).is_err() {
        panic!(rt; "no memory for one more task")
    }
}

// The tasks, the last one first. Each has allocated its element and waits for its block; the first one's block is posted.
fn begin_all<R: Abort + Wait>(
    rt: &R,
    alloc: Global,
    station: &Station,
    mut tasks: Vec<Task>,
) -> VecDeque<Runner>
    requires tasks { AreFresh station.now 0 tasks.items }
    requires blocks { length station.now.config.owners ≡ 8 }
    ensures { AllByRecursion (λ r. MayGoOn station.now r.task r.wait r.pause) result.items }
{
    let mut runners = VecDeque::new(alloc);
    for _ in 0..=LAST {
        assert!(rt; !tasks.is_empty());
        let task = station.take_last(&mut tasks);
        add(rt, &mut runners, begin(rt, alloc, station, task));
    }
    runners
}

// Marks the tasks whose keys are rung by the entries of a log from position `from` on. Task e has block e and element e, and the
// last three bits of their keys are e.
fn hear(woken: &mut [bool; 8], log: &OpenLog, from: usize) {
    for at in from..log.len() {
        if let Some(entry) = log.get(at) {
            if let Some(key) = rung(&entry) {
                woken[(key & 7) as usize] = true;
            }
        }
    }
}

// Polls a task if it was marked.
fn turn<R: Abort + Wait>(station: &Station, rt: &R, runner: Runner, woken: &mut [bool; 8]) -> Runner
    requires runner { MayGoOn station.now runner.task runner.wait runner.pause }
    requires blocks { length station.now.config.owners ≡ 8 }
    requires elements { element_count station.now.config ≡ 8 }
    ensures { MayGoOn station.now result.task result.wait result.pause }
{
    let number = (runner.task.number() & 7) as usize;
    if !woken[number] {
        return runner;
    }
    let from = runner.task.log().len();
    let runner = go_on(station, rt, runner);
    woken[number] = runner.task.log().len() > from;
    hear(woken, runner.task.log(), from);
    runner
}

// Polls one task after the other, if it was marked.
fn run<R: Abort + Wait>(
    station: &Station,
    rt: &R,
    mut runners: VecDeque<Runner>,
) -> VecDeque<Runner>
    requires runners { AllByRecursion (λ r. MayGoOn station.now r.task r.wait r.pause) runners.items }
    requires blocks { length station.now.config.owners ≡ 8 }
    requires elements { element_count station.now.config ≡ 8 }
    ensures { AllByRecursion (λ r. MayGoOn station.now r.task r.wait r.pause) result.items }
{
    let mut woken = [true; 8];
    for _ in 0..TURNS {
        let Some(runner) = runners.pop_front() else {
            panic!(rt; "a task is lost")
        };
        add(rt, &mut runners, turn(station, rt, runner, &mut woken));
    }
    runners
}

// Appends one more task to those that are back.
fn give_back<R: Abort>(rt: &R, tasks: &mut Vec<Task>, task: Task)
    ensures { tasks.new.items ≡ tasks.old.items ++ task ∷ [] }
{
    if tasks.push(task).is_err() {
        panic!(rt; "no memory for the tasks")
    }
}

// The tasks in their order, once all are done.
fn tasks_of<R: Abort>(
    rt: &R,
    alloc: Global,
    station: &Station,
    mut runners: VecDeque<Runner>,
) -> Vec<Task>
    requires runners { AllByRecursion (λ r. MayGoOn station.now r.task r.wait r.pause) runners.items }
    ensures { AreInOrder station.now 0 result.items × (length result.items ≡ 8) }
{
    let _config = station.config();
    let mut tasks = Vec::new(alloc);
    for _ in 0..=LAST {
        let Some(runner) = runners.pop_back() else {
            panic!(rt; "a task is lost")
        };
        assert!(rt; runner.wait.is_none() && runner.pause.is_none());
        assert_eq!(rt; runner.task.number() as usize, tasks.len());
        give_back(rt, &mut tasks, runner.task);
    }
    assert_eq!(rt; tasks.len(), 8);
    tasks
}

// A new station of eight tasks with a block each.
fn open_eight<R: Abort>(rt: &R, alloc: Global) -> (Station, Vec<Task>)
    ensures blocks { length result.0.config.owners ≡ 8 }
    ensures elements { element_count result.0.config ≡ 8 }
    ensures callers { result.0.config.callers ≡ 8 }
    ensures tasks { AreFresh result.0 0 result.1.items }
{
    let owners = vec![in alloc; 0, 1, 2, 3, 4, 5, 6, LAST].expect(rt, "room for owners");
    open(rt, alloc, owners)
}

// Runs new tasks until all are done.
fn go_round<R: Abort + Wait>(
    rt: &R,
    alloc: Global,
    station: &Station,
    tasks: Vec<Task>,
) -> Vec<Task>
    requires tasks { AreFresh station.now 0 tasks.items }
    requires blocks { length station.now.config.owners ≡ 8 }
    requires elements { element_count station.now.config ≡ 8 }
    ensures { AreInOrder station.now 0 result.items × (length result.items ≡ 8) }
{
    let runners = begin_all(rt, alloc, station, tasks);
    let runners = run(station, rt, runners);
    tasks_of(rt, alloc, station, runners)
}

// Closes the station, and judges that its history is legal.
fn judge<R: Abort>(rt: &R, alloc: Global, station: Station, tasks: Vec<Task>)
    requires callers { station.config.callers ≡ 8 }
    requires tasks { AreInOrder station 0 tasks.items × (length tasks.items ≡ 8) }
{
    let history = station.close(tasks).history;
    let Ok(listed) = history.listed(alloc) else {
        panic!(rt; "no memory for a list of events")
    };
    // Each task has allocated, armed, settled and passed on, and in each lap paused, resumed and passed on; and there is the
    // first post.
    assert!(rt; listed.journal.len() == 8 * 4 + 3 * 8 * 3 + 1);
    assert!(rt; replay(alloc, &listed.config, &listed.journal).is_ok());
}

#[test]
fn eight_tasks_go_round_by_what_is_rung(rt: HostRuntime) {
    let (station, tasks) = open_eight(&rt, rt.alloc());
    let tasks = go_round(&rt, rt.alloc(), &station, tasks);
    judge(&rt, rt.alloc(), station, tasks);
}
