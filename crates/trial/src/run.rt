// 01, Deadlock: the trial run. An actor that is visited fires as often as it is short of its number and its channels allow; an
// actor is visited again only after a channel into it has got tokens. Passes over all actors miss nobody; between two visits of a
// pass the hints lead straight to the actors that have got tokens.
ghost use Rattle.std.specs.Prelude.{◌≡◌, ℕ, ◌+◌, ◌*◌, ◌/◌, ◌^◌, ◌<◌, ◌≤◌, length, get_or, IfSome};
ghost use Rattle.units.specs.Bounds.{engine_actors, max_repetition};
ghost use Rattle.sdf.specs.Order.{removed, Lives};
ghost use Rattle.trial.specs.Flat.{channel_at, vector};
ghost use Rattle.trial.specs.Net.{net_graph};
ghost use Rattle.sets.specs.Decides.{Decides};
ghost use Rattle.trial.specs.Read.{seen};
ghost use Rattle.trial.specs.Trial.{Runnable, Greatest, Lets, Allows, Woken, Fireable, Put, TakenOff, Fired, Visitable, Visited, Underway, Started};

use super::along::Along;
use super::channel::Channel;
use super::linked::Lists;
use super::net::Net;
use units::{Count, Firings, Tokens};

impl Channel {
    // How often the channel, with so many tokens held, lets its head v fire in a row, at most `most` times.
    fn times(self, held: Tokens, v: usize, most: Firings) -> Firings
        requires { (self.head ≡ v) × (0 < self.consume.n) × (most.n * self.consume.n < 2 ^ 64) }
        ensures { Greatest (Lets (seen self) held.n v) most.n result.n }
    {
        let rate = self.consume;
        if held < rate {
            return Firings::of(0);
        }
        if self.tail == v || most.tokens(rate) <= held {
            return most;
        }
        held.firings(rate)
    }

    // With so many tokens held, a head other than actor v is ready for a visit where they are enough for it.
    fn wake(self, held: Tokens, v: usize, ready: &mut [u64], hints: &mut [u64])
        requires { (self.head < length ready.old) × (0 < length hints.old) }
        ensures { Woken (seen self) v held.n ready.old ready.new }
    {
        let head = self.head;
        if head == v || held < self.consume || ready[head] != 0 {
            return;
        }
        ready[head] = 1;
        push(hints, head);
    }
}

// The hints: place 0 says how many there are, and the actors stand behind it. Where there is no room the hint is dropped.
fn push(hints: &mut [u64], v: usize)
    requires { 0 < length hints.old }
{
    let top = hints[0] as usize;
    if top < hints.len() - 1 {
        hints[top + 1] = v as u64;
        hints[0] = (top + 1) as u64;
    }
}

// The last hint, which is taken off, if it is an actor.
fn pop(hints: &mut [u64], actors: usize) -> Option<usize>
    requires { 0 < length hints.old }
    ensures { IfSome result (λ v. (v < actors) × (get_or hints.new 0 0 < get_or hints.old 0 0) × (get_or hints.old 0 0 < length hints.old)) }
{
    let top = hints[0] as usize;
    let below = top.checked_sub(1)?;
    let v = *hints.get(top)? as usize;
    hints[0] = below as u64;
    (v < actors).then_some(v)
}

// How often actor v can fire in a row, at most `short` times.
fn allowance(lists: &Lists, tokens: &[u64], v: usize, short: Firings) -> Firings
    requires { (v < lists.now.net.now.actors) × (length lists.now.net.now.channels.now / 5 ≤ length tokens.now) × ((c : ℕ) → c < length lists.now.net.now.channels.now / 5 → (0 < (channel_at lists.now.net.now.channels.now c).consume) × (short.n * (channel_at lists.now.net.now.channels.now c).consume < 2 ^ 64)) }
    ensures { Greatest (Allows (channel_at lists.now.net.now.channels.now) (length lists.now.net.now.channels.now / 5) (vector tokens.now) v) short.n result.n }
{
    let mut k = short;
    for c in Along::of(lists.into, lists.net.actors, v) {
        if k.count() == 0 {
            return k;
        }
        k = Channel::at(lists.net.channels, c).times(Tokens::of(tokens[c]), v, k);
    }
    k
}

// The channels out of actor v get what k firings produce.
fn put(
    lists: &Lists,
    v: usize,
    k: Firings,
    tokens: &mut [u64],
    ready: &mut [u64],
    hints: &mut [u64],
)
    requires { (v < lists.now.net.now.actors) × Fireable (channel_at lists.now.net.now.channels.now) (length lists.now.net.now.channels.now / 5) v k.n tokens.old ready.old × (0 < length hints.old) }
    ensures { Put (channel_at lists.now.net.now.channels.now) (length lists.now.net.now.channels.now / 5) v k.n tokens.old ready.old tokens.new ready.new }
{
    for c in Along::of(lists.out, lists.net.actors, v) {
        let e = Channel::at(lists.net.channels, c);
        let held = Tokens::of(tokens[c]).plus(k.tokens(e.produce));
        tokens[c] = held.count();
        e.wake(held, v, ready, hints);
    }
}

// The channels into actor v lose what k firings consume.
fn take(lists: &Lists, v: usize, k: Firings, tokens: &mut [u64])
    requires { (v < lists.now.net.now.actors) × (length lists.now.net.now.channels.now / 5 ≤ length tokens.old) × ((c : ℕ) → c < length lists.now.net.now.channels.now / 5 → k.n * removed (channel_at lists.now.net.now.channels.now c) v ≤ get_or tokens.old c 0) }
    ensures { (c : ℕ) → c < length lists.now.net.now.channels.now / 5 → TakenOff (channel_at lists.now.net.now.channels.now c) v k.n (get_or tokens.old c 0) (get_or tokens.new c 0) }
{
    for c in Along::of(lists.into, lists.net.actors, v) {
        tokens[c] -= k.tokens(Channel::at(lists.net.channels, c).consume).count();
    }
}

// k firings of actor v in a row: they put before they take, since from v to v they put back what they take.
fn fire(
    lists: &Lists,
    v: usize,
    k: Firings,
    tokens: &mut [u64],
    ready: &mut [u64],
    hints: &mut [u64],
)
    requires { (v < lists.now.net.now.actors) × Fireable (channel_at lists.now.net.now.channels.now) (length lists.now.net.now.channels.now / 5) v k.n tokens.old ready.old × (0 < length hints.old) }
    ensures { Fired (channel_at lists.now.net.now.channels.now) (length lists.now.net.now.channels.now / 5) v k.n tokens.old ready.old tokens.new ready.new }
{
    put(lists, v, k, tokens, ready, hints);
    take(lists, v, k, tokens);
}

// A visit to actor v. Returns how often it fired. Where it fired nothing the hints are as they were.
fn visit(
    lists: &Lists,
    v: usize,
    tokens: &mut [u64],
    left: &mut [u64],
    ready: &mut [u64],
    hints: &mut [u64],
) -> Firings
    requires { (v < lists.now.net.now.actors) × Visitable (net_graph lists.now.net.now) tokens.old left.old ready.old × (0 < length hints.old) }
    ensures visited { Visited (net_graph lists.now.net.now) v result.n tokens.old left.old ready.old tokens.new left.new ready.new }
    ensures hints_unchanged { result.n ≡ 0 → hints.new ≡ hints.old }
{
    if ready[v] == 0 {
        return Firings::of(0);
    }
    ready[v] = 0;
    let short = Firings::of(left[v]);
    let k = allowance(lists, tokens, v, short);
    if k.count() == 0 {
        return k;
    }
    fire(lists, v, k, tokens, ready, hints);
    left[v] = short.less(k).count();
    k
}

// A visit to actor v, and visits along the hints, the last one first. Returns how often actors fired together.
fn follow(
    lists: &Lists,
    v: usize,
    tokens: &mut [u64],
    left: &mut [u64],
    ready: &mut [u64],
    hints: &mut [u64],
) -> Firings
    requires { (v < lists.now.net.now.actors) × Underway (net_graph lists.now.net.now) tokens.old left.old ready.old × (0 < length hints.old) }
    ensures { Visited (net_graph lists.now.net.now) v result.n tokens.old left.old ready.old tokens.new left.new ready.new }
{
    let mut sum = Firings::of(0);
    let mut w = v;
    loop {
        let k = visit(lists, w, tokens, left, ready, hints);
        sum = sum.plus(k);
        let Some(next) = pop(hints, lists.net.actors) else {
            return sum;
        };
        w = next;
    }
}

fn initial(net: &Net, tokens: &mut [u64])
    requires { length net.now.channels.now / 5 ≤ length tokens.old }
    ensures { (c : ℕ) → c < length net.now.channels.now / 5 → get_or tokens.new c 0 ≡ (channel_at net.now.channels.now c).tokens }
{
    for c in 0..net.channel_count() {
        tokens[c] = Channel::at(net.channels, c).tokens.count();
    }
}

// Every actor is ready, and all its firings are still to come. Returns how many these are together.
fn start(actors: usize, q: &[u64], left: &mut [u64], ready: &mut [u64]) -> Firings
    requires { (actors ≤ engine_actors) × ((v : ℕ) → v < actors → get_or q.now v 0 ≤ max_repetition) × (actors ≤ length q.now) × (actors ≤ length left.old) × (actors ≤ length ready.old) }
    ensures { Started actors q.now left.new ready.new result.n }
{
    ready[..actors].fill(1);
    let mut rest = Firings::of(0);
    for v in 0..actors {
        // One by one: a copy of the part at once would have the archive for C ask for memmove.
        left[v] = q[v];
        rest = rest.plus(Firings::of(q[v]));
    }
    rest
}

// 01, Deadlock: whether some legal order fires every actor exactly q times.
// `tokens`, `left`, `ready` and `hints` are lent to work in.
pub fn lives(
    lists: &Lists,
    q: &[u64],
    tokens: &mut [u64],
    left: &mut [u64],
    ready: &mut [u64],
    hints: &mut [u64],
) -> bool
    requires drawn { Runnable (net_graph lists.now.net.now) q.now }
    requires actors_in_bounds { (lists.now.net.now.actors ≤ length q.now) × (length lists.now.net.now.channels.now / 5 ≤ length tokens.old) × (lists.now.net.now.actors ≤ length left.old) × (lists.now.net.now.actors ≤ length ready.old) × (0 < length hints.old) }
    ensures { Decides result (Lives (net_graph lists.now.net.now) (vector q.now)) }
{
    hints[0] = 0;
    initial(lists.net, tokens);
    let mut rest = start(lists.net.actors, q, left, ready);
    'run: loop {
        let mut fired = false;
        for v in 0..lists.net.actors {
            let k = follow(lists, v, tokens, left, ready, hints);
            if k.count() != 0 {
                fired = true;
            }
            rest = rest.less(k);
            if rest.count() == 0 {
                break 'run;
            }
        }
        if !fired {
            break 'run;
        }
    }
    rest.count() == 0
}
