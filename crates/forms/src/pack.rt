// From the unpacked form to the byte string.
ghost use Rattle.std.specs.Prelude.{◌≡◌, ◌++◌, ◌+◌, ◌≤◌, length, drop};
ghost use Rattle.std.proofs.lemmas.List.Edits.{sets};
ghost use Rattle.sheet.specs.Answer.{filled};
ghost use Rattle.sheet.specs.Fields.{to_bytes, bytes};
ghost use Rattle.sheet.specs.Forms.{graphs_bytes, packed, pack_answer};
ghost use Rattle.sheet.proofs.Parts.{packs, packs_graphs};

use super::turn::Turn;
use sheet::Refusal;

// n in a field of two bytes, at place `at`.
fn two(n: u32, at: usize, out: &mut [u8])
    requires { at + 2 ≤ length out.old }
    ensures { out.new ≡ sets out.old at (to_bytes 2 n) }
{
    out[at..at + 2].copy_from_slice(&n.to_be_bytes()[2..]);
}

fn four(n: u32, at: usize, out: &mut [u8])
    requires { at + 4 ≤ length out.old }
    ensures { out.new ≡ sets out.old at (to_bytes 4 n) }
{
    out[at..at + 4].copy_from_slice(&n.to_be_bytes());
}

// Numbers are written into bytes.
impl<'a> Turn for &'a [u32] {
    type To = &'static [u8];

    type Entry = u8;

    ghost made = { bytes };

    ghost all = { graphs_bytes };

    ghost parts = { packs };

    ghost one_by_one = { packs_graphs };

    // Four bytes and two numbers of four bytes.
    fn fixed(self, out: &mut [u8]) {
        out[0] = (self[0] % 256) as u8;
        out[1] = (self[1] % 256) as u8;
        out[2] = (self[2] % 256) as u8;
        out[3] = (self[3] % 256) as u8;
        four(self[4], 4, out);
        four(self[5], 8, out);
    }

    fn time(self, out: &mut [u8]) {
        four(self[0], 0, out);
    }

    // Two bytes and three numbers of two bytes.
    fn channel(self, out: &mut [u8]) {
        out[0] = (self[0] % 256) as u8;
        out[1] = (self[1] % 256) as u8;
        two(self[2], 2, out);
        two(self[3], 4, out);
        two(self[4], 6, out);
    }
}

// Answers 3 to 6 and 14; without a refusal the sheet stands in the first places of the bytes.
pub fn list(l: &[u32], out: &mut [u8]) -> Result<usize, Refusal>
    ensures answer { result ≡ pack_answer l.now (length out.old) }
    ensures memory { out.new ≡ filled result (packed l.now) out.old }
{
    sheet::range::numbers(l)?;
    let n = l[0] as u64;
    let rest = &l[1..];
    let all = 4 + rest.count(n);
    if out.len() < all {
        return Err(Refusal::Room);
    }
    two(all as u32, 0, out);
    out[2] = 1;
    out[3] = n as u8;
    rest.graphs(n, &mut out[4..]);
    Ok(all)
}
