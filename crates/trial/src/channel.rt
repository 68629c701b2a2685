// A channel as the engine's functions read it from the flat list.
ghost use Rattle.std.specs.Prelude.{◌≡◌, ◌/◌, ◌<◌, length};
ghost use Rattle.trial.specs.Flat.{channel_at};
ghost use Rattle.trial.specs.Read.{seen};

use units::{Count, Tokens};

// In document 01's order.
#[derive(Clone, Copy)]
pub struct Channel {
    pub tail: usize,
    pub head: usize,
    pub produce: Tokens,
    pub consume: Tokens,
    pub tokens: Tokens,
}

impl Channel {
    pub fn at(channels: &[u32], c: usize) -> Self
        requires { c < length channels.now / 5 }
        ensures { seen result ≡ channel_at channels.now c }
    {
        let b = 5 * c;
        Self {
            tail: channels[b] as usize,
            head: channels[b + 1] as usize,
            produce: Tokens::of(channels[b + 2] as u64),
            consume: Tokens::of(channels[b + 3] as u64),
            tokens: Tokens::of(channels[b + 4] as u64),
        }
    }
}
