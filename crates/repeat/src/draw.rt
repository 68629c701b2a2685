// One pass over the channels: who leads to whom, and by which channel.
ghost use Rattle.std.specs.Prelude.{◌*◌, ◌≤◌, ◌≡◌, length};
ghost use Rattle.trial.specs.Net.{net_graph};
ghost use Rattle.repeat.specs.Words.{Words, Between, KeptBack};

use sets::with;
use trial::channel::Channel;
use trial::net::Net;

// An actor's neighbours: the heads of the channels out of it, the tails of those into it, and those of these tails that are tied to
// it.
#[derive(Clone, Copy)]
pub struct Neighbours {
    pub heads: u64,
    pub tails: u64,
    pub tied: u64,
}

impl Neighbours {
    pub const NOBODY: Neighbours = Neighbours {
        heads: 0,
        tails: 0,
        tied: 0,
    };
}

// Fills in each actor's neighbours, and for each pair of actors that a channel joins such a channel. Returns who is kept from firing
// in the initial tokens.
pub fn draw(net: &Net, neighbours: &mut [Neighbours], between: &mut [u8]) -> u64
    requires { (net.now.actors ≤ length neighbours.old) × (net.now.actors * net.now.actors ≤ length between.old) }
    ensures { Words (net_graph net.now) neighbours.new × Between (net_graph net.now) neighbours.new between.new × KeptBack (net_graph net.now) result }
{
    neighbours[..net.actors].fill(Neighbours::NOBODY);
    let mut back = 0;
    for c in 0..net.channel_count() {
        let e = Channel::at(net.channels, c);
        let tail = &mut neighbours[e.tail];
        tail.heads = with(tail.heads, e.head, true);
        let head = &mut neighbours[e.head];
        head.tails = with(head.tails, e.tail, true);
        head.tied = with(head.tied, e.tail, e.tokens < e.produce);
        back = with(back, e.head, e.tokens < e.consume);
        between[net.actors * e.tail + e.head] = c as u8;
    }
    back
}
