// The calls. All checks come before the first store into lent memory.
ghost use Rattle.std.specs.Prelude.{◌≡◌, List, ℕ, Ok, Err, ltb, length};
ghost use Rattle.sheet.specs.Answer.{unless};
ghost use Rattle.sheet.specs.declared.Refusal.TheVariants.{Number};
ghost use Rattle.sheet.specs.Forms.{packed, unpacked};
ghost use Rattle.shambrukit.specs.Verdict.{VerdictBy};
ghost use Rattle.shambrukit.specs.Calls.{Told, Fills, SheetFills, ListFills, demand_told, fewest_told, listed, numbers_of, repetition_numbers, skip_numbers, task_list, whole};
ghost use Rattle.ready.specs.Graphs.{Judged};
ghost use Rattle.shambrukit.specs.Held.{HeldFramed, HeldVerdict, HeldTold, HeldListed, Column};

use super::form::{Memory, Sheet};
use super::{Load, Verdict};
use demand::frame::{Weighted, frame_load, weigh};
use demand::length::{demand_at, fewest_firings};
use demand::rows::{Actor, Rows};
use late::search::late;
use piece::Known;
use ready::prepare::GRAPHS;
use sheet::Refusal;
use units::{Count, Firings, Ticks};

// Answers 20, 21 and 0, for graphs that are ready.
fn verdict_of(rows: &Rows, frame: Ticks) -> Verdict
    requires { HeldFramed rows.now frame.n }
    ensures { HeldVerdict rows.now frame.n result }
{
    let mut weight = [Ticks::of(0); GRAPHS];
    weigh(rows, &mut weight);
    let weighted = Weighted {
        rows,
        weight: &weight,
    };
    let load = frame_load(&weighted, frame);
    let sum = Load { load, frame };
    if frame < load {
        return Verdict::Overload(sum);
    }
    let mut pieces = [Known::NOTHING; GRAPHS];
    match late(&weighted, frame, load, &mut pieces) {
        Some(t) => Verdict::Late(sum, t),
        None => Verdict::Accepted(sum),
    }
}

// 01, The answer table.
pub fn judge<F: Sheet>(form: F) -> Verdict
    ensures { VerdictBy (F.lines form) result }
{
    let form = match form.checked() {
        Err(r) => return Verdict::Refused(r),
        Ok(form) => form,
    };
    let mut memory = Memory::new();
    match form.prepare(&mut memory) {
        Err(r) => Verdict::Refused(r),
        Ok(ready) => verdict_of(&memory.rows(ready.graphs), ready.frame),
    }
}

fn demand_of(rows: &Rows, length: u64) -> Result<u64, Refusal>
    ensures { HeldTold rows.now (λ o. demand_told o length) result }
{
    let length = Ticks::length(length).ok_or(Refusal::Question)?;
    Ok(demand_at(rows, length).count())
}

// 01, Demand at a length.
pub fn demand<F: Sheet>(form: F, length: u64) -> Result<u64, Refusal>
    ensures { Told (F.lines form) (λ o. demand_told o length) result }
{
    let form = form.checked()?;
    let mut memory = Memory::new();
    let ready = form.prepare(&mut memory)?;
    demand_of(&memory.rows(ready.graphs), length)
}

// The place of a graph that is asked for.
fn graph_at(rows: &Rows, graph: u64) -> Result<usize, Refusal>
    ensures { result ≡ unless (ltb graph (length rows.now.heads.now)) Number (Ok graph) }
{
    if graph < rows.graphs() as u64 {
        Ok(graph as usize)
    } else {
        Err(Refusal::Number)
    }
}

fn fewest_of(rows: &Rows, graph: u64, actor: u64, k: u64) -> Result<u64, Refusal>
    ensures { HeldTold rows.now (λ o. fewest_told o graph actor k) result }
{
    let actors = rows.actors_of(graph_at(rows, graph)?);
    let Actor {
        repetition,
        skip,
        ..
    } = *actors.get(actor as usize).ok_or(Refusal::Number)?;
    let outputs = Firings::outputs(k).ok_or(Refusal::Question)?;
    Ok(fewest_firings(outputs, repetition, skip).count())
}

// 01, Fewest firings of an actor of a graph for k outputs.
pub fn fewest<F: Sheet>(form: F, graph: u64, actor: u64, k: u64) -> Result<u64, Refusal>
    ensures { Told (F.lines form) (λ o. fewest_told o graph actor k) result }
{
    let form = form.checked()?;
    let mut memory = Memory::new();
    let ready = form.prepare(&mut memory)?;
    fewest_of(&memory.rows(ready.graphs), graph, actor, k)
}

// One number for each actor of a graph.
fn column_of<N: Fn(Actor) -> u64>(
    rows: &Rows,
    graph: u64,
    number: N,
    out: &mut [u64],
) -> Result<usize, Refusal>
    requires { N.IsAlwaysCallable number }
    ensures { (field : Actor → ℕ) (numbers : Judged → List ℕ) → ((a : Actor) (n : ℕ) → N.post number a n → n ≡ field a) → Column field numbers → HeldListed rows.now numbers graph result out.old out.new }
{
    let actors = rows.actors_of(graph_at(rows, graph)?);
    if out.len() < actors.len() {
        return Err(Refusal::Room);
    }
    for (v, actor) in actors.iter().enumerate() {
        out[v] = number(*actor);
    }
    Ok(actors.len())
}

// Repetition numbers of a graph.
pub fn repetition<F: Sheet>(form: F, graph: u64, out: &mut [u64]) -> Result<usize, Refusal>
    ensures { Fills (F.lines form) (λ o. listed repetition_numbers o graph (length out.old)) (λ o. numbers_of repetition_numbers o graph) result out.old out.new }
{
    let form = form.checked()?;
    let mut memory = Memory::new();
    let ready = form.prepare(&mut memory)?;
    column_of(
        &memory.rows(ready.graphs),
        graph,
        |actor| actor.repetition.count(),
        out,
    )
}

// Skips of a graph.
pub fn skips<F: Sheet>(form: F, graph: u64, out: &mut [u64]) -> Result<usize, Refusal>
    ensures { Fills (F.lines form) (λ o. listed skip_numbers o graph (length out.old)) (λ o. numbers_of skip_numbers o graph) result out.old out.new }
{
    let form = form.checked()?;
    let mut memory = Memory::new();
    let ready = form.prepare(&mut memory)?;
    column_of(
        &memory.rows(ready.graphs),
        graph,
        |actor| actor.skip.count(),
        out,
    )
}

fn tasks_of(rows: &Rows, graph: u64, out: &mut [u64]) -> Result<usize, Refusal>
    ensures { HeldListed rows.now task_list graph result out.old out.new }
{
    let i = graph_at(rows, graph)?;
    let count = demand::tasks::count(rows, i);
    if out.len() < count {
        return Err(Refusal::Room);
    }
    demand::tasks::list(rows, i, out);
    Ok(count)
}

// 01, Task list of a graph.
pub fn tasks<F: Sheet>(form: F, graph: u64, out: &mut [u64]) -> Result<usize, Refusal>
    ensures { Fills (F.lines form) (λ o. listed task_list o graph (length out.old)) (λ o. numbers_of task_list o graph) result out.old out.new }
{
    let form = form.checked()?;
    let mut memory = Memory::new();
    let ready = form.prepare(&mut memory)?;
    tasks_of(&memory.rows(ready.graphs), graph, out)
}

// The unpacked form of a sheet that no answer of 1 to 12 refuses.
pub fn unpack(s: &[u8], out: &mut [u32]) -> Result<usize, Refusal>
    ensures { SheetFills s.now (λ o. whole o (length (unpacked s.now)) (length out.old)) (λ _. unpacked s.now) result out.old out.new }
{
    s.checked()?;
    s.prepare(&mut Memory::new())?;
    forms::unpack::sheet(s, out)
}

// The sheet of an unpacked form that no answer of 3 to 12 refuses.
pub fn pack(l: &[u32], out: &mut [u8]) -> Result<usize, Refusal>
    ensures { ListFills l.now (λ o. whole o (length (packed l.now)) (length out.old)) (λ _. packed l.now) result out.old out.new }
{
    l.checked()?;
    l.prepare(&mut Memory::new())?;
    forms::pack::list(l, out)
}
