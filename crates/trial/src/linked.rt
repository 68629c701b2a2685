// What the trial run goes along.
ghost use Rattle.std.specs.Prelude.{◌≡◌, ◌+◌, ◌/◌, ◌≤◌, length};
ghost use Rattle.trial.specs.Net.{LinkedInto, LinkedOut};

use super::links::{End, link};
use super::net::Net;

// A graph and the lists of its channels: those into each actor, and those out of it.
#[derive(Drop)]
pub struct Lists<'a> {
    pub net: &'a Net<'a>,
    pub into: &'a [u64],
    pub out: &'a [u64],
    pub ghost linked_into: { LinkedInto net.now into.now },
    pub ghost linked_out: { LinkedOut net.now out.now },
}

impl<'a> Lists<'a> {
    // The graph, with its lists in the slices lent.
    pub fn of(net: &'a Net<'a>, into: &'a mut [u64], out: &'a mut [u64]) -> Lists<'a>
        requires { (net.now.actors + length net.now.channels.now / 5 ≤ length into.old) × (net.now.actors + length net.now.channels.now / 5 ≤ length out.old) }
        ensures { result.net.now ≡ net.now }
    {
        link(net, End::Head, into);
        link(net, End::Tail, out);
        Lists { net, into, out }
    }
}
