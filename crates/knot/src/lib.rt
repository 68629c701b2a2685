// 01, Deadlock: who waits for nobody that is left fires all its firings at once, and who is awaited by nobody that is left goes last.
// Only the core between them is tried, on the channels within it on which somebody has to wait, and only for its least share of the
// firings: after that its tokens are as before.
#![tactic(auto)]

ghost use Rattle.std.specs.Prelude.{◌≡◌, true, ℕ, ◌+◌, ◌*◌, ◌/◌, ◌<◌, ◌≤◌, length, take, get_or};
ghost use Rattle.std.specs.Int.{◌∣◌};
ghost use Rattle.units.specs.Bounds.{max_repetition};
ghost use Rattle.sets.specs.Decides.{Decides};
ghost use Rattle.sets.specs.Sets.{has, Below};
ghost use Rattle.sdf.specs.Balance.{AtMost, Balanced};
ghost use Rattle.sdf.specs.Order.{Lives};
ghost use Rattle.trial.specs.Flat.{channel_at, graph_of, vector};
ghost use Rattle.trial.specs.Net.{net_graph};
ghost use Rattle.trial.specs.Knot.{waits, Awaits, Done, Core, Kept, Shares, Released, Wanted, Copied, Unit};

use sets::{Members, all, common, has, joined, minus, with};
use trial::channel::Channel;
use trial::linked::Lists;
use trial::net::Net;
use trial::run;
use units::{Count, Firings};

// A graph with balanced numbers, and for whom each actor has to wait. `awaited` says that the sets are right, but not which
// channel put an actor in: the proofs look for one.
#[derive(Drop)]
pub struct Waiting<'a> {
    pub net: &'a Net<'a>,
    pub q: &'a [u64],
    pub awaits: &'a [u64],
    pub ghost balanced: { Balanced (net_graph net.now) (vector q.now) },
    pub ghost awaited: { ∥ Awaits (net_graph net.now) (vector q.now) (vector awaits.now) ∥₁ },
    pub ghost room: { net.now.actors ≤ length awaits.now },
}

// Those left without v, if it waits for none of them.
fn release(left: u64, awaits: u64, v: usize) -> u64
    requires { v < 64 }
    ensures { Released left awaits v result }
{
    minus(left, with(0, v, common(awaits, left) == 0))
}

// One pass over the actors in the order in which they were met. The order is a hint: what stands there matters for the time only.
fn pass(waiting: &Waiting, met: &[u64], left: u64) -> u64
    requires met_in_bounds { waiting.now.net.now.actors ≤ length met.now }
    requires done { Done (net_graph waiting.now.net.now) (vector waiting.now.q.now) left × Below left waiting.now.net.now.actors }
    ensures { Done (net_graph waiting.now.net.now) (vector waiting.now.q.now) result × Below result waiting.now.net.now.actors × (result ≤ left) }
{
    let actors = waiting.net.actors;
    let mut rest = left;
    for v in &met[..actors] {
        let v = *v as usize;
        if v < actors {
            rest = release(rest, waiting.awaits[v], v);
        }
    }
    rest
}

// Those who are left when all have fired who wait for nobody left.
fn ordered(waiting: &Waiting, met: &[u64]) -> u64
    requires { waiting.now.net.now.actors ≤ length met.now }
    ensures { Done (net_graph waiting.now.net.now) (vector waiting.now.q.now) result × Below result waiting.now.net.now.actors }
{
    let mut left = all(waiting.net.actors);
    loop {
        let rest = pass(waiting, met, left);
        if rest == 0 || rest == left {
            return rest;
        }
        left = rest;
    }
}

// Those of the set whom somebody of the set awaits.
fn wanted(awaits: &[u64], left: u64) -> u64
    requires { Below left (length awaits.now) }
    ensures { Wanted (vector awaits.now) left result }
{
    let mut all = 0;
    for v in Members::of(left) {
        all = joined(all, awaits[v]);
    }
    common(left, all)
}

// The core of those left: without those whom nobody awaits.
fn core_of(waiting: &Waiting, left: u64) -> u64
    requires { Done (net_graph waiting.now.net.now) (vector waiting.now.q.now) left × Below left waiting.now.net.now.actors }
    ensures { Core (net_graph waiting.now.net.now) (vector waiting.now.q.now) result × Below result waiting.now.net.now.actors }
{
    let mut core = left;
    loop {
        let rest = wanted(waiting.awaits, core);
        if rest == core {
            return core;
        }
        core = rest;
    }
}

// Whether channel c is within the core and its head has to wait for its tail.
fn within(net: &Net, q: &[u64], core: u64, c: usize) -> bool
    requires { AtMost (net_graph net.now) (vector q.now) (λ _. max_repetition) × (net.now.actors ≤ length q.now) × (c < length net.now.channels.now / 5) }
    ensures { Decides result ((waits (net_graph net.now) (vector q.now) c ≡ true) × (has core (channel_at net.now.channels.now c).tail ≡ 1) × (has core (channel_at net.now.channels.now c).head ≡ 1)) }
{
    let e = Channel::at(net.channels, c);
    if has(core, e.tail) == 0 || has(core, e.head) == 0 {
        return false;
    }
    let enough = if e.tail == e.head {
        e.consume
    } else {
        Firings::of(q[e.tail]).tokens(e.produce)
    };
    e.tokens < enough
}

// Channel c, as channel d of another list.
fn copy(channels: &[u32], c: usize, d: usize, kept: &mut [u32])
    requires { (c < length channels.now / 5) × (d < length kept.old / 5) }
    ensures { Copied channels.now c d kept.old kept.new }
{
    kept[5 * d..5 * d + 5].copy_from_slice(&channels[5 * c..5 * c + 5]);
}

// The channels within the core on which somebody has to wait. Returns how many these are.
fn keep(net: &Net, q: &[u64], core: u64, kept: &mut [u32]) -> usize
    requires { AtMost (net_graph net.now) (vector q.now) (λ _. max_repetition) × (net.now.actors ≤ length q.now) × (length net.now.channels.now / 5 ≤ length kept.old / 5) }
    ensures { Kept (net_graph net.now) (graph_of net.now.actors net.now.input net.now.output (take (5 * result) kept.new)) (vector q.now) core × (result ≤ length net.now.channels.now / 5) }
{
    let mut n = 0;
    for c in 0..net.channel_count() {
        if within(net, q, core, c) {
            copy(net.channels, c, n, kept);
            n += 1;
        }
    }
    n
}

// A number that divides both, and is not 0 unless both are.
fn divisor(a: u64, b: u64) -> u64
    requires { 0 < a }
    ensures { (0 < result) × (result ∣ a) × (result ∣ b) }
{
    let mut x = a;
    let mut y = b;
    while y != 0 {
        (x, y) = (y, x % y);
    }
    x
}

// A number that divides those of all actors of the core.
fn unit(actors: usize, q: &[u64], core: u64) -> u64
    requires { Below core actors × (actors ≤ length q.now) × ((v : ℕ) → v < actors → 0 < get_or q.now v 0) }
    ensures { Unit actors (vector q.now) core result }
{
    let mut d = 0;
    for v in Members::of(core) {
        d = divisor(q[v], d);
        if d == 1 {
            return d;
        }
    }
    d.max(1)
}

// The least share of the core's firings.
fn shares(actors: usize, q: &[u64], core: u64, share: &mut [u64])
    requires { Below core actors × (actors ≤ 64) × (actors ≤ length q.now) × (actors ≤ length share.old) × ((v : ℕ) → v < actors → 0 < get_or q.now v 0) }
    ensures { Shares actors (vector q.now) core (vector share.new) }
{
    let d = unit(actors, q, core);
    for v in 0..actors {
        share[v] = q[v] * has(core, v) / d;
    }
}

// 01, Deadlock: whether some legal order fires every actor exactly q times. On entry `left` holds actors in an order that
// helps; it and what follows are lent to work in.
pub fn lives(
    waiting: &Waiting,
    kept: &mut [u32],
    share: &mut [u64],
    tokens: &mut [u64],
    left: &mut [u64],
    ready: &mut [u64],
    into: &mut [u64],
    out: &mut [u64],
    hints: &mut [u64],
) -> bool
    requires at_most { AtMost (net_graph waiting.now.net.now) (vector waiting.now.q.now) (λ _. max_repetition) × (waiting.now.net.now.actors ≤ length waiting.now.q.now) }
    requires channels_in_bounds { (length waiting.now.net.now.channels.now / 5 ≤ length kept.old / 5) × (waiting.now.net.now.actors ≤ length share.old) × (length waiting.now.net.now.channels.now / 5 ≤ length tokens.old) × (waiting.now.net.now.actors ≤ length left.old) × (waiting.now.net.now.actors ≤ length ready.old) }
    requires channels_in_bounds_2 { (waiting.now.net.now.actors + length waiting.now.net.now.channels.now / 5 ≤ length into.old) × (waiting.now.net.now.actors + length waiting.now.net.now.channels.now / 5 ≤ length out.old) × (0 < length hints.old) }
    ensures { Decides result (Lives (net_graph waiting.now.net.now) (vector waiting.now.q.now)) }
{
    let net = waiting.net;
    let q = waiting.q;
    let late = ordered(waiting, left);
    if late == 0 {
        return true;
    }
    let core = core_of(waiting, late);
    let n = keep(net, q, core, kept);
    shares(net.actors, q, core, share);
    let inner = Net {
        actors: net.actors,
        input: net.input,
        output: net.output,
        channels: &kept[..5 * n],
    };
    let lists = Lists::of(&inner, into, out);
    run::lives(&lists, share, tokens, left, ready, hints)
}
