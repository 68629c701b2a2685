// The channels at each actor, in lists: one pass over the channels links them by one of their ends.
ghost use Rattle.std.specs.Prelude.{◌+◌, ◌/◌, ◌≤◌, length};
ghost use Rattle.trial.specs.Links.{end_of, Linked};

use super::channel::Channel;
use super::net::Net;
use sets::clear;

// The end of a channel at which it is linked.
#[derive(Clone, Copy, PartialEq, Eq)]
pub enum End {
    Tail,
    Head,
}

// Lists of the channels by one of their ends, the last channel first. Place v leads to the first of actor v's list, place actors + c
// to what follows channel c: 0 is the end, d + 1 is channel d.
pub fn link(net: &Net, end: End, links: &mut [u64])
    requires { net.now.actors + length net.now.channels.now / 5 ≤ length links.old }
    ensures { Linked (end_of end net.now.channels.now) net.now.actors (length net.now.channels.now / 5) links.new }
{
    clear(net.actors, links);
    for c in 0..net.channel_count() {
        let channel = Channel::at(net.channels, c);
        let v = match end {
            End::Tail => channel.tail,
            End::Head => channel.head,
        };
        links[net.actors + c] = links[v];
        links[v] = c as u64 + 1;
    }
}
