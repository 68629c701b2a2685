// The two forms of a sheet, and how much room a graph takes in each.
ghost use Rattle.std.specs.Prelude.{◌≡◌, ◌<◌, ◌≤◌, ℕ, List, length, get_or, drop};
ghost use Rattle.std.proofs.Common.{arith};
ghost use Rattle.units.specs.Bounds.{max_actors, max_channels};
ghost use Rattle.sheet.specs.Field.{Field};
ghost use Rattle.sheet.specs.Layout.{layout, total, in_bytes, in_numbers};
ghost use Rattle.sheet.specs.Sizes.{Sizes, sizes_bytes, sizes_numbers};

// 01, Bounds.
pub const MAX_GRAPHS: u64 = 8;

pub const MAX_ACTORS: u64 = 32;

pub const MAX_CHANNELS: u64 = 64;

// Numbers and bytes of the fixed part, of an actor and of a channel.
pub const FIXED: usize = 6;

pub const CHANNEL: usize = 5;

pub const FIXED_BYTES: usize = 12;

pub const ACTOR_BYTES: usize = 4;

pub const CHANNEL_BYTES: usize = 8;

// The longest unpacked form, and the largest sheet.
pub const LIST: usize = 1
    + MAX_GRAPHS as usize * (FIXED + MAX_ACTORS as usize + CHANNEL * MAX_CHANNELS as usize);

pub const SHEET: usize = 4
    + MAX_GRAPHS as usize
        * (FIXED_BYTES + ACTOR_BYTES * MAX_ACTORS as usize + CHANNEL_BYTES * MAX_CHANNELS as usize);

// A form, or what is left of it from some place on: bytes, or the numbers of the unpacked form. The same counts stand at the same
// places in both.
pub trait Form: Copy {
    // What stands there, and how much of it a field takes.
    ghost entries: { Self → List ℕ };

    ghost size: { Field → ℕ };

    // How much the fixed part, an actor and a channel take.
    ghost fixed: { ℕ };

    ghost actor: { ℕ };

    ghost channel: { ℕ };

    fn len(self) -> usize
        ensures { result ≡ length (entries self) };

    // The entry at one place.
    fn at(self, place: usize) -> usize
        requires { place < length (entries self) }
        ensures { result ≡ get_or (entries self) place 0 };

    // What stands from one place on.
    fn from(self, place: usize) -> Self
        requires { place ≤ length (entries self) }
        ensures { entries result ≡ drop place (entries self) };

    // How much a graph with those counts takes.
    fn room(actors: usize, channels: usize) -> usize
        requires { (actors ≤ max_actors) × (channels ≤ max_channels) }
        ensures { result ≡ total size (layout actors channels) };

    // These are what the layout comes to.
    ghost sizes: { Sizes size fixed actor channel };

    // Both counts stand in the fixed part, and no part takes more than it does in bytes.
    ghost few: { (2 ≤ fixed) × (fixed ≤ 12) × (actor ≤ 4) × (channel ≤ 8) };
}

impl<'a> Form for &'a [u8] {
    ghost entries = { λ s. s.now };

    ghost size = { in_bytes };

    ghost fixed = { 12 };

    ghost actor = { 4 };

    ghost channel = { 8 };

    ghost sizes = { sizes_bytes };

    ghost few = { (Prim.omega arith, Prim.omega arith, Prim.omega arith, Prim.omega arith) };

    fn len(self) -> usize {
        <[u8]>::len(self)
    }

    fn at(self, place: usize) -> usize {
        usize::from(self[place])
    }

    fn from(self, place: usize) -> Self {
        self.split_at(place).1
    }

    fn room(actors: usize, channels: usize) -> usize
        requires { (actors ≤ max_actors) × (channels ≤ max_channels) }
        ensures { result ≡ total in_bytes (layout actors channels) }
    {
        FIXED_BYTES + ACTOR_BYTES * actors + CHANNEL_BYTES * channels
    }
}

impl<'a> Form for &'a [u32] {
    ghost entries = { λ l. l.now };

    ghost size = { in_numbers };

    ghost fixed = { 6 };

    ghost actor = { 1 };

    ghost channel = { 5 };

    ghost sizes = { sizes_numbers };

    ghost few = { (Prim.omega arith, Prim.omega arith, Prim.omega arith, Prim.omega arith) };

    fn len(self) -> usize {
        <[u32]>::len(self)
    }

    fn at(self, place: usize) -> usize {
        self[place] as usize
    }

    fn from(self, place: usize) -> Self {
        &self[place..]
    }

    fn room(actors: usize, channels: usize) -> usize
        requires { (actors ≤ max_actors) × (channels ≤ max_channels) }
        ensures { result ≡ total in_numbers (layout actors channels) }
    {
        FIXED + actors + CHANNEL * channels
    }
}
