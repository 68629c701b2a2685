// Answers 3 to 12 of an unpacked form. Without a refusal, every graph's period, deadline and actor count stand in `heads`, and the
// worst-case times, repetition numbers and skips of its actors in a row of `actors`.
ghost use Rattle.std.specs.Prelude.{◌≡◌, ◌<◌, ◌≤◌, length, Ok};
ghost use Rattle.sheet.specs.Layout.{in_numbers};
ghost use Rattle.sheet.specs.Check.{actor_count, first_walk};
ghost use Rattle.ready.specs.Rows.{Prepares};
ghost use Rattle.ready.specs.Ready.{refusal_of, Says, Headed, Placed, Walked};

use super::Ready;
use demand::frame;
use demand::rows::{Actor, Head};
use graph::Fault;
use repeat::draw::Neighbours;
use sheet::Refusal;
use sheet::graph::Graph;
use trial::net::Net;
use units::{Count, Firings, Ticks};

// Graphs of a sheet, and places in the row of each.
pub const GRAPHS: usize = 8;

pub const ROOM: usize = 32;

pub const ACTORS: usize = GRAPHS * ROOM;

// Channels of a graph, and links of a list of them.
const CHANNELS: usize = 64;

const LINKS: usize = ROOM + CHANNELS;

// What a graph is worked out in: its repetition numbers q and skips s, and what `graph::numbers` is lent beside them.
#[derive(Drop)]
struct Scratch {
    q: [u64; ROOM],
    s: [u64; ROOM],
    neighbours: [Neighbours; ROOM],
    between: [u8; ROOM * ROOM],
    awaits: [u64; ROOM],
    kept: [u32; 5 * CHANNELS],
    tokens: [u64; CHANNELS],
    left: [u64; ROOM],
    ready: [u64; ROOM],
    into: [u64; LINKS],
    out: [u64; LINKS],
    hints: [u64; ROOM + 1],
}

fn refusal(fault: Fault, k: u64) -> Refusal
    ensures { result ≡ refusal_of fault k }
{
    match fault {
        Fault::Reach => Refusal::Reach(k),
        Fault::Balance => Refusal::Balance(k),
        Fault::NotOnce => Refusal::NotOnce(k),
        Fault::Deadlock => Refusal::Deadlock(k),
        Fault::Restless => Refusal::Restless(k),
    }
}

// Answers 6 to 11 for the graph numbered k. Without a refusal its repetition numbers stand in `work.q` and its skips in `work.s`.
#[tactic(auto, using(crate::proofs::Says::says_range))]
fn numbers(graph: &Graph, k: u64, work: &mut Scratch) -> Result<(), Refusal>
    ensures { Says k graph.now.numbers.now result work.new.q work.new.s }
{
    if !graph.in_range() {
        return Err(Refusal::Range(k));
    }
    let net = Net {
        actors: graph.actors(),
        input: graph.input(),
        output: graph.output(),
        channels: graph.channels(),
    };
    graph::numbers(
        &net,
        &mut work.q,
        &mut work.s,
        &mut work.neighbours,
        &mut work.between,
        &mut work.awaits,
        &mut work.kept,
        &mut work.tokens,
        &mut work.left,
        &mut work.ready,
        &mut work.into,
        &mut work.out,
        &mut work.hints,
    )
    .map_err(|fault| refusal(fault, k))
}

fn head(graph: &Graph) -> Head
    ensures { Headed graph.now.numbers.now result }
{
    Head {
        period: graph.period(),
        deadline: graph.deadline(),
        actors: graph.actors(),
    }
}

// Worst-case time, repetition number and skip of each of its actors, into row k.
#[tactic(auto, using(crate::proofs::Places::placed_turn))]
fn row(graph: &Graph, q: &[u64; ROOM], s: &[u64; ROOM], k: usize, actors: &mut [Actor])
    requires { (k < 8) × (256 ≤ length actors.old) }
    ensures { Placed graph.now.numbers.now q.now s.now k (actor_count graph.now.numbers.now) actors.old actors.new }
{
    let times = graph.times();
    for v in 0..graph.actors() {
        actors[ROOM * k + v] = Actor {
            time: Ticks::of(times[v] as u64),
            repetition: Firings::of(q[v]),
            skip: Firings::of(s[v]),
        };
    }
}

// The second walk, over n graphs that the first walk has passed: each is judged and put into its places. What they are worked out in
// is cleared once.
fn walk(l: &[u32], n: usize, heads: &mut [Head], actors: &mut [Actor]) -> Result<(), Refusal>
    requires { (first_walk in_numbers n 0 l.now ≡ Ok tt) × (n ≤ 8) × (8 ≤ length heads.old) × (256 ≤ length actors.old) }
    ensures { Walked n l.now result heads.new actors.new }
{
    let mut work = Scratch {
        q: [0; ROOM],
        s: [0; ROOM],
        neighbours: [Neighbours::NOBODY; ROOM],
        between: [0; ROOM * ROOM],
        awaits: [0; ROOM],
        kept: [0; 5 * CHANNELS],
        tokens: [0; CHANNELS],
        left: [0; ROOM],
        ready: [0; ROOM],
        into: [0; LINKS],
        out: [0; LINKS],
        hints: [0; ROOM + 1],
    };
    let mut rest = l;
    for k in 0..n {
        let graph = Graph { numbers: rest };
        numbers(&graph, k as u64, &mut work)?;
        heads[k] = head(&graph);
        row(&graph, &work.q, &work.s, k, actors);
        rest = graph.behind();
    }
    Ok(())
}

#[tactic(auto, using(sheet::proofs::Ranges::list_passed, crate::proofs::Readying::prepares_no))]
pub fn list(l: &[u32], heads: &mut [Head], actors: &mut [Actor]) -> Result<Ready, Refusal>
    requires { (8 ≤ length heads.old) × (256 ≤ length actors.old) }
    ensures { Prepares l.now result heads.new actors.new }
{
    sheet::check::list(l)?;
    let graphs = l[0] as usize;
    walk(&l[1..], graphs, heads, actors)?;
    match frame::frame(&heads[..graphs]) {
        Some(frame) => Ok(Ready { graphs, frame }),
        None => Err(Refusal::Frame),
    }
}
