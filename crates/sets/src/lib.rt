// Sets of up to 64 actors, each the bits of one word, and slices of such words.
#![tactic(auto)]

ghost use Rattle.std.specs.Prelude.{◌≡◌, cond, ℕ, ◌*◌, ◌-◌, ◌^◌, ◌<◌, ◌≤◌, min, max, length, get_or, MatchOption};
ghost use Rattle.std.specs.Iterator.{at_most};
ghost use Rattle.sets.specs.Decides.{Decides};
ghost use Rattle.sets.specs.Sets.{has, Covers, Below, Put, Marked, Spread, Tells};

pub fn has(set: u64, v: usize) -> u64
    requires { v < 64 }
    ensures { result ≡ has set v }
{
    set >> v & 1
}

// Nobody but v.
pub fn only(v: usize) -> u64
    requires { v < 64 }
    ensures { Put 0 v 1 result }
{
    1 << v
}

// The actors below n.
pub fn all(n: usize) -> u64
    requires { (0 < n) × (n ≤ 64) }
    ensures { Covers result n × Below result n }
{
    u64::MAX >> (64 - n)
}

// The set, and v too where `flag` says so.
pub fn with(set: u64, v: usize, flag: bool) -> u64
    requires { v < 64 }
    ensures { Put set v (max (has set v) (cond flag 1 0)) result }
{
    set | (flag as u64) << v
}

pub fn without(set: u64, v: usize) -> u64
    requires { v < 64 }
    ensures { Put set v 0 result }
{
    set & !(1 << v)
}

pub fn joined(a: u64, b: u64) -> u64
    ensures { (v : ℕ) → has result v ≡ max (has a v) (has b v) }
{
    a | b
}

pub fn common(a: u64, b: u64) -> u64
    ensures { ((v : ℕ) → has result v ≡ min (has a v) (has b v)) × (result ≤ a) }
{
    a & b
}

pub fn minus(a: u64, b: u64) -> u64
    ensures { ((v : ℕ) → has result v ≡ has a v - has b v) × (result ≤ a) }
{
    a & !b
}

// Whether every actor below n is in the set.
pub fn covers(set: u64, n: usize) -> bool
    requires { (0 < n) × (n ≤ 64) }
    ensures { Decides result (Covers set n) }
{
    minus(all(n), set) == 0
}

// Somebody of the set: the one with the lowest number.
pub fn least(set: u64) -> usize
    requires { 0 < set }
    ensures { (result < 64) × (has set result ≡ 1) }
{
    u64::trailing_zeros(set) as usize
}

// The actors of a set, each once.
#[derive(Drop)]
pub struct Members {
    rest: u64,
}

impl Members {
    pub fn of(set: u64) -> Self
        ensures { result.rest ≡ set }
    {
        Self { rest: set }
    }
}

impl Iterator for Members {
    type Item = usize;

    ghost next_gives = { λ s r t. MatchOption r (s.rest ≡ 0) (λ v. (v < 64) × (has s.rest v ≡ 1) × Put s.rest v 0 t.rest) };

    ghost remaining = { λ s. at_most s.rest };

    fn next(&mut self) -> Option<usize> {
        if self.rest == 0 {
            return None;
        }
        let v = least(self.rest);
        self.rest = without(self.rest, v);
        Some(v)
    }
}

// Somebody of the set: the one with the highest number.
pub fn greatest(set: u64) -> usize
    requires { 0 < set }
    ensures { (result < 64) × (has set result ≡ 1) }
{
    63 - u64::leading_zeros(set) as usize
}

// The word at one place gets v where `flag` says so.
pub fn mark(words: &mut [u64], at: usize, v: usize, flag: bool)
    requires { (at < length words.old) × (v < 64) }
    ensures { Marked at v (cond flag 1 0) words.old words.new }
{
    words[at] = with(words[at], v, flag);
}

// All that are met from `start`: `set_of` says whom each of the first n actors leads to.
pub fn spread<F: Fn(usize) -> u64>(n: usize, set_of: F, start: u64) -> u64
    requires { (n ≤ 64) × Below start n × ((v : ℕ) → v < n → F.pre set_of v) × ((v set : ℕ) → v < n → F.post set_of v set → Below set n) }
    ensures { (sets : ℕ → ℕ) → Tells (F.post set_of) n sets → Spread sets start result }
{
    let mut met = start;
    let mut todo = start;
    while todo != 0 {
        let v = least(todo);
        let fresh = minus(set_of(v), met);
        todo = joined(without(todo, v), fresh);
        met = joined(met, fresh);
    }
    met
}

pub fn clear(n: usize, words: &mut [u64])
    requires { n ≤ length words.old }
    ensures { (v : ℕ) → v < n → get_or words.new v 0 ≡ 0 }
{
    words[..n].fill(0);
}
