// Answers 1 to 5 for both forms, in document 01's order.
ghost use Rattle.std.specs.Prelude.{◌≡◌, ◌&&◌, ◌+◌, ◌<◌, ◌≤◌, length, drop};
ghost use Rattle.units.specs.Bounds.{max_actors, max_channels};
ghost use Rattle.units.specs.Within.{between};
ghost use Rattle.sheet.specs.Fields.{big_endian};
ghost use Rattle.sheet.specs.Check.{graph_check, first_walk, check_graphs, check_sheet, check_list};

use super::Refusal;
use super::layout::{Form, MAX_ACTORS, MAX_CHANNELS, MAX_GRAPHS};

// 01: numbers are big-endian. Fields of two and of four bytes, at place `at`.
pub fn two(s: &[u8], at: usize) -> u32
    requires { at + 2 ≤ length s.now }
    ensures { (result ≡ big_endian 2 (drop at s.now)) × (result < 65536) }
{
    u16::from_be_bytes([s[at], s[at + 1]]) as u32
}

pub fn four(s: &[u8], at: usize) -> u32
    requires { at + 4 ≤ length s.now }
    ensures { result ≡ big_endian 4 (drop at s.now) }
{
    u32::from_be_bytes([s[at], s[at + 1], s[at + 2], s[at + 3]])
}

fn sized(actors: usize, channels: usize) -> bool
    ensures { result ≡ (between 1 max_actors actors && between 0 max_channels channels) }
{
    (1..=MAX_ACTORS as usize).contains(&actors) && channels <= MAX_CHANNELS as usize
}

// The graph numbered k, from the start of its stretch.
fn graph<F: Form>(form: F, k: u64) -> Result<(), Refusal>
    ensures { result ≡ graph_check F.size k (F.entries form) }
{
    if form.len() < F::room(0, 0) {
        return Err(Refusal::Cut(k));
    }
    let actors = form.at(0);
    let channels = form.at(1);
    if !sized(actors, channels) {
        return Err(Refusal::Size(k));
    }
    if form.len() < F::room(actors, channels) {
        return Err(Refusal::Cut(k));
    }
    Ok(())
}

fn walk<F: Form>(form: F, n: u64) -> Result<(), Refusal>
    ensures { result ≡ first_walk F.size n 0 (F.entries form) }
{
    let mut rest = form;
    for k in 0..n {
        graph(rest, k)?;
        rest = rest.from(F::room(rest.at(0), rest.at(1)));
    }
    if 0 < rest.len() {
        return Err(Refusal::Cut(n));
    }
    Ok(())
}

// The graph count and the graphs.
#[tactic(auto, unfolding(crate::specs::Check::check_graphs))]
fn graphs<F: Form>(form: F, n: u64) -> Result<(), Refusal>
    ensures { result ≡ check_graphs F.size n (F.entries form) }
{
    if !(1..=MAX_GRAPHS).contains(&n) {
        return Err(Refusal::Count);
    }
    walk(form, n)
}

// Answers 1 to 5 for a byte string.
pub fn sheet(s: &[u8]) -> Result<(), Refusal>
    ensures { result ≡ check_sheet s.now }
{
    if s.len() < 4 || two(s, 0) as usize != s.len() {
        return Err(Refusal::Length);
    }
    if s[2] != 1 {
        return Err(Refusal::Version);
    }
    graphs(&s[4..], s[3] as u64)
}

// Answers 3 to 5 for the unpacked form.
pub fn list(l: &[u32]) -> Result<(), Refusal>
    ensures { result ≡ check_list l.now }
{
    if l.is_empty() {
        return Err(Refusal::Count);
    }
    graphs(&l[1..], l[0] as u64)
}
