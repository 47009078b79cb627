//! The server and its workers. Clauses cite `specs/Pool.antt` and `specs/Right.antt`.

ghost use Rattle.std.specs.Prelude.{◌≡◌, ◌<◌, ◌≤◌, ◌+◌, ℕ, [], length, map, slice_index, IfOk, All};
ghost use Rattle.std.specs.List.{AllByRecursion};
ghost use Rattle.mv_wait.specs.Prelude.{release_limit, Legal, highest_place};
ghost use Rattle.mv_attach.specs.Entries.{Finds};
ghost use Rattle.mv_attach.specs.Rooms.{HasRoom};
ghost use Rattle.mv_server.specs.Pool.{workers, requests_limit, weeks_limit, worker_events, hand_out_events, server_events};
ghost use Rattle.mv_server.specs.Pool.{pool_setup, days_in};
ghost use Rattle.mv_server.specs.Right.{IsAsked, CanServe, IsBack, StaysReady, HasDone, IsWorkersPost};

use mv_attach::{Work, config_of_blocks, run_tasks};
use mv_pause::{Token, allocate, pause, release};
use mv_wait::{History, NoMemory, Station, Task, ValidConfig, WaitSlot};
use std::alloc::Global;
use std::sync::Wait;
use std::thread::Threads;
use std::time::Clock;

/// The number of workers. Worker w is caller w, its element is w, and block w says that it is idle. After these blocks there is
/// one for the answer to each request.
const WORKERS: u32 = 3;

/// The blocks that say of each worker that it is idle.
const IDLE: [u32; WORKERS as usize] = [0, 1, 2];

/// The code that says to a worker that no request follows. Request r is handed out with the code r + 1.
const STOP: u32 = 0;

/// The results of a service.
#[derive(Drop)]
pub struct Served {
    /// The answer to each request.
    pub answers: Vec<u32>,
    /// All events, as one legal history, with the configuration of the run.
    pub history: History,
}

/// Returns the answer to a request: how many days this many weeks have.
pub fn answer_to(weeks: u32) -> u32
    requires { weeks < weeks_limit }
    ensures { result ≡ days_in weeks }
{
    7 * weeks
}

// The workers are the callers from 0 on, and the server, which owns all blocks, is the last one.
#[tactic(auto, using(crate::proofs::Pool::owners_exist, crate::proofs::Pool::budgets_fit))]
pub(crate) fn pool_config(alloc: Global, requests: u32) -> Result<ValidConfig, NoMemory>
    requires few { requests ≤ requests_limit }
    ensures { IfOk result (λ config. config ≡ pool_setup requests) }
{
    // A worker opens its element; for each request and for the stop it makes at most a post, the two events of a pause, and a
    // post.
    let mut budgets = vec![in alloc; 4 * requests + 5; WORKERS as usize]?;
    // For each request and each worker's stop the server waits for the workers' blocks, and at most clears and releases each; and
    // it waits for each answer.
    budgets.push(4 * WORKERS * (requests + WORKERS) + 2 * requests)?;
    let owners = vec![in alloc; WORKERS; (WORKERS + requests) as usize]?;
    config_of_blocks(alloc, &budgets, &owners)
}

// The work of a worker: it posts that it is idle, with the generation of its next pause, pauses, and answers the request that it
// is given, until it is given the stop.
fn work<R: Wait + Clock>(station: &Station, rt: &R, task: &mut Task, requests: &[u32])
    requires ready { CanServe station.now requests.now task.old }
    requires new { task.old.log ≡ [] }
    requires number { task.old.number < workers }
    requires left { worker_events (length requests.now) ≤ task.old.left }
    ensures kept { StaysReady station.now requests.now (worker_events (length requests.now)) task.old task.new }
{
    let count = requests.len() as u32;
    let idle = task.number();
    // The task is new, so its element is free.
    let Ok(mut token) = allocate(station, rt, task) else {
        unreachable!()
    };
    for round in 0..count + 1 {
        station.post(rt, task, idle, token.generation);
        // The last token that a task was given is not refused.
        let Ok(given) = pause(station, rt, task, token) else {
            unreachable!()
        };
        if given.code == STOP || given.code > count {
            return;
        }
        let request = given.code - 1;
        let answer = answer_to(requests[request as usize]);
        station.post(rt, task, WORKERS + request, answer);
        token = given.next;
    }
}

// Waits until a worker is idle, and hands this code to the first worker that accepts it.
fn hand_out<R: Wait + Clock>(
    station: &Station,
    rt: &R,
    task: &mut Task,
    requests: &[u32],
    code: u32,
)
    requires ready { IsBack station.now requests.now workers task.old }
    requires code { code < release_limit }
    requires left { hand_out_events ≤ task.old.left }
    ensures kept { StaysReady station.now requests.now hand_out_events task.old task.new }
{
    let mut found = [WaitSlot::Open; WORKERS as usize];
    // All of these blocks are the server's, and none is extended.
    let Ok(()) = station.wait(rt, task, 1, &IDLE, &mut found) else {
        unreachable!()
    };
    for worker in 0..WORKERS {
        if let WaitSlot::Complete(generation) = found[worker as usize] {
            // The block is cleared first, because the worker may be idle again before the release returns.
            let Ok(_) = station.clear(rt, task, worker) else {
                unreachable!()
            };
            let token = Token {
                element: worker,
                generation,
            };
            // Whether this token is still current depends on what the worker did, so no clause of the server excludes that the
            // release is refused. Then the next idle worker gets the code; if there is none, no worker gets it, and the wait for
            // its answer never ends.
            if release(station, rt, task, token, code).is_ok() {
                return;
            }
        }
    }
}

// Waits for the block of a request, and returns the code with which it was posted.
fn await_answer<R: Wait + Clock>(
    station: &Station,
    rt: &R,
    task: &mut Task,
    requests: &[u32],
    block: u32,
) -> u32
    requires ready { IsBack station.now requests.now workers task.old }
    requires block { block < workers + length requests.now }
    requires left { 2 ≤ task.old.left }
    ensures finds { Finds task.new.log block result }
    ensures found { (n code : ℕ) → Finds task.old.log n code → Finds task.new.log n code }
    ensures kept { StaysReady station.now requests.now 2 task.old task.new }
{
    station.wait_one(rt, task, block)
}

// The work of the server: it hands out each request, stops each worker, and waits for each answer, in order.
fn serve<R: Wait + Clock>(
    station: &Station,
    rt: &R,
    task: &mut Task,
    requests: &[u32],
    answers: &mut Vec<u32>,
)
    requires ready { IsBack station.now requests.now workers task.old }
    requires left { server_events (length requests.now) ≤ task.old.left }
    requires room { HasRoom (length requests.now) answers.old }
    ensures done { HasDone station.now requests.now workers task.new answers.new.items }
{
    let count = requests.len() as u32;
    for request in 0..count {
        hand_out(station, rt, task, requests, request + 1);
    }
    for worker in 0..WORKERS {
        hand_out(station, rt, task, requests, STOP);
    }
    for r in 0..count {
        let answer = await_answer(station, rt, task, requests, WORKERS + r);
        answers.push_reserved(answer);
    }
}

// The work of all tasks: the workers answer, and the server, which is the task after them, hands out these requests and collects
// the answers.
#[derive(Drop)]
pub(crate) struct Pool<'a> {
    pub requests: &'a [u32],
}

impl Work for Pool<'_> {
    type Room = Vec<u32>;

    ghost can_start = { λ pool b k room. IsAsked b pool.requests.now × (k ≡ workers → HasRoom (length pool.requests.now) room) };

    ghost has_done = { λ pool b k old t new. HasDone b pool.requests.now k t new.items };

    fn work<R: Wait + Clock>(
        &self,
        station: &Station,
        rt: &R,
        task: &mut Task,
        answers: &mut Vec<u32>,
    ) {
        if task.number() == WORKERS {
            serve(station, rt, task, self.requests, answers);
        } else {
            work(station, rt, task, self.requests);
        }
    }
}

// An empty list for each task, with room for all answers; only the server fills its list.
pub(crate) fn rooms_for(alloc: Global, requests: usize) -> Result<Vec<Vec<u32>>, NoMemory>
    ensures count { IfOk result (λ rooms. length rooms.items ≡ workers + 1) }
    ensures room { IfOk result (λ rooms. AllByRecursion (HasRoom requests) rooms.items) }
{
    let mut rooms = Vec::new(alloc);
    for made in 0..WORKERS + 1 {
        rooms.push(Vec::with_capacity(alloc, requests)?)?;
    }
    Ok(rooms)
}

/// Answers each of these requests, numbers of weeks below 2^27, by a pool of workers.
///
/// # Errors
///
/// `NoMemory` if memory runs out, before any task starts.
pub fn serve_all<R: Threads + Wait + Clock + Sync>(
    rt: &R,
    alloc: Global,
    requests: &[u32],
) -> Result<Served, NoMemory>
    requires few { length requests.now ≤ requests_limit }
    requires small { AllByRecursion (λ weeks. weeks < weeks_limit) requests.now }
    ensures answers { IfOk result (λ served. served.answers.items ≡ map days_in requests.now) }
    ensures posted { IfOk result (λ served. (r : ℕ) → r < length requests.now
        → IsWorkersPost served.history.coming (workers + r) (slice_index served.answers.items r)) }
    ensures config { IfOk result (λ served. served.history.config ≡ pool_setup (length requests.now)) }
    // No entry of the history has been read yet.
    ensures whole { IfOk result (λ served. served.history.past ≡ []) }
    ensures legal { IfOk result (λ served. Legal served.history.config served.history.coming) }
    ensures places { IfOk result (λ served. All (λ e. e.place ≤ highest_place) served.history.coming) }
{
    let rooms = rooms_for(alloc, requests.len())?;
    let config = pool_config(alloc, requests.len() as u32)?;
    let (station, tasks) = Station::open(alloc, config)?;
    let pool = Pool { requests };
    let (tasks, mut rooms) = run_tasks(rt, alloc, &station, &pool, tasks, rooms)?;
    // The server's room is the last one.
    let Some(answers) = rooms.pop() else {
        unreachable!()
    };
    let closed = station.close(tasks);
    Ok(Served {
        answers,
        history: closed.history,
    })
}
