// A graph as the engine is handed it: its counts, its input and output, and the flat list of its channels.
ghost use Rattle.std.specs.Prelude.{◌≡◌, ◌/◌, length};
ghost use Rattle.trial.specs.Flat.{graph_of, Drawn};

// `drawn` says that it is a graph the engine takes (01, answer 6, and the engine's bounds).
#[derive(Drop)]
pub struct Net<'a> {
    pub actors: usize,
    pub input: usize,
    pub output: usize,
    pub channels: &'a [u32],
    pub ghost drawn: { Drawn (graph_of actors input output channels.now) },
}

impl<'a> Net<'a> {
    // How many channels there are.
    pub fn channel_count(&self) -> usize
        ensures { result ≡ length self.now.channels.now / 5 }
    {
        self.channels.len() / 5
    }
}
