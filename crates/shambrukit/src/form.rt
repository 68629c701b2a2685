// Answers 1 to 12, for a byte string and for an unpacked form; behind them every call is the same for both.
ghost use Rattle.std.specs.Prelude.{◌≡◌, List, length};
ghost use Rattle.ready.specs.Lines.{Outcome, sheet_lines, list_lines};
ghost use Rattle.shambrukit.specs.Held.{CheckedBy, PreparedBy, Stand};
ghost use Rattle.ready.specs.Graphs.{Judged};
ghost use Rattle.ready.specs.Rows.{Rows as Stands};

use demand::rows::{Actor, Head, Rows};
use forms::unpack;
use ready::prepare::{ACTORS, GRAPHS, ROOM};
use ready::{Ready, prepare};
use sheet::Refusal;
use sheet::layout::LIST;
use units::{Count, Firings, Ticks};

// Room for the graphs of a sheet, and for the row of each.
#[derive(Drop)]
pub struct Memory {
    pub heads: [Head; GRAPHS],
    pub actors: [Actor; ACTORS],
}

impl Memory {
    pub(crate) fn new() -> Memory {
        let none = Ticks::of(0);
        let head = Head {
            period: none,
            deadline: none,
            actors: 0,
        };
        let actor = Actor {
            time: none,
            repetition: Firings::of(0),
            skip: Firings::of(0),
        };
        Memory {
            heads: [head; GRAPHS],
            actors: [actor; ACTORS],
        }
    }

    // The graphs that stand ready.
    pub(crate) fn rows(&self, graphs: usize) -> Rows<'_>
        requires { (js : List Judged) × (length js ≡ graphs) × Stands js self.now.heads self.now.actors }
        ensures { (js : List Judged) → length js ≡ graphs → Stands js self.now.heads self.now.actors → Stand js result }
    {
        Rows {
            heads: &self.heads[..graphs],
            actors: &self.actors,
            room: ROOM,
        }
    }
}

// A sheet in one of its two forms.
pub trait Sheet {
    // The lines 1 to 12 of the answer table, as they read for this form.
    ghost lines: { Self → Outcome → Type 0 };

    // The refusals that need no memory: a call asks for them before it clears any. Not inlined below: each export for C would hold it.
    fn checked(self) -> Result<Self, Refusal>
    where
        Self: Sized,
        ensures { CheckedBy lines self result }
    {
        Ok(self)
    }

    // Without a refusal every graph stands in the memory.
    fn prepare(self, memory: &mut Memory) -> Result<Ready, Refusal>
        ensures { PreparedBy (lines self) result memory.new.heads memory.new.actors };
}

impl<'a> Sheet for &'a [u8] {
    ghost lines = { λ s. sheet_lines s.now };

    // Answers 1 to 5.
    #[inline(never)]
    fn checked(self) -> Result<Self, Refusal> {
        sheet::check::sheet(self)?;
        Ok(self)
    }

    fn prepare(self, memory: &mut Memory) -> Result<Ready, Refusal> {
        let mut numbers = [0u32; LIST];
        let n = unpack::sheet(self, &mut numbers)?;
        prepare::list(&numbers[..n], &mut memory.heads, &mut memory.actors)
    }
}

impl<'a> Sheet for &'a [u32] {
    ghost lines = { λ l. list_lines l.now };

    // Answers 3 to 5.
    #[inline(never)]
    fn checked(self) -> Result<Self, Refusal> {
        sheet::check::list(self)?;
        Ok(self)
    }

    fn prepare(self, memory: &mut Memory) -> Result<Ready, Refusal> {
        prepare::list(self, &mut memory.heads, &mut memory.actors)
    }
}
