// 01, Task list: three numbers a task.
ghost use Rattle.std.specs.Prelude.{◌≡◌, cond, [], ◌∷◌, ◌++◌, ◌+◌, ◌/◌, ◌%◌, ◌<◌, ◌≤◌, eqb, length, drop};
ghost use Rattle.edf.specs.Tasks.{tasks, actor_tasks, task_numbers};
ghost use Rattle.edf.proofs.Fits.{TasksFit};
ghost use Rattle.demand.specs.Rows.{work_in};
ghost use Rattle.demand.specs.Written.{alone, Wrote};

use super::rows::{Actor, Head, Rows};
use units::Count;

// How many numbers the tasks of that actor have.
fn actor_count(actor: Actor) -> usize
    requires { 0 < actor.repetition.n }
    ensures { result ≡ cond (eqb (actor.skip.n % actor.repetition.n) 0) 3 6 }
{
    if actor.skip.count().is_multiple_of(actor.repetition.count()) {
        return 3;
    }
    6
}

// How many numbers the task list of graph i has.
pub fn count(rows: &Rows, i: usize) -> usize
    requires { i < length rows.now.heads.now }
    ensures { result ≡ length (task_numbers (tasks (work_in rows.now i))) }
{
    let mut n = 0;
    for &actor in rows.actors_of(i) {
        n += actor_count(actor);
    }
    n
}

// The task list of graph i, into the first places of `out`.
pub fn list(rows: &Rows, i: usize, out: &mut [u64])
    requires { (i < length rows.now.heads.now) × (length (task_numbers (tasks (work_in rows.now i))) ≤ length out.old) }
    ensures { out.new ≡ task_numbers (tasks (work_in rows.now i)) ++ drop (length (task_numbers (tasks (work_in rows.now i)))) out.old }
{
    let mut to = 0;
    for &actor in rows.actors_of(i) {
        to = actor_tasks(out, to, actor, rows.heads[i]);
    }
}

// The tasks of one actor from that place on; the place behind them.
fn actor_tasks(out: &mut [u64], to: usize, actor: Actor, head: Head) -> usize
    requires { (0 < actor.repetition.n) × (0 < head.period.n) × TasksFit (alone actor head) 0 × (to + length (task_numbers (actor_tasks (alone actor head) 0)) ≤ length out.old) }
    ensures { Wrote out.old to (task_numbers (actor_tasks (alone actor head) 0)) out.new result }
{
    let time = actor.time.count();
    let repetition = actor.repetition.count();
    let skip = actor.skip.count();
    let period = head.period.count();
    let deadline = head.deadline.count();
    let a = skip / repetition;
    let b = skip % repetition;
    let next = task(
        out,
        to,
        (repetition - b) * time,
        a * period + deadline,
        period,
    );
    if b == 0 {
        return next;
    }
    task(out, next, b * time, (a + 1) * period + deadline, period)
}

// One task at that place; the place behind it.
fn task(out: &mut [u64], to: usize, cost: u64, deadline: u64, period: u64) -> usize
    requires { to + 3 ≤ length out.old }
    ensures { Wrote out.old to (cost ∷ deadline ∷ period ∷ []) out.new result }
{
    out[to] = cost;
    out[to + 1] = deadline;
    out[to + 2] = period;
    to + 3
}
