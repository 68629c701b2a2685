// From the byte string to the unpacked form.
ghost use Rattle.std.specs.Prelude.{◌≡◌, ◌++◌, ◌≤◌, length, drop};
ghost use Rattle.sheet.specs.Answer.{filled};
ghost use Rattle.sheet.specs.Fields.{numbers};
ghost use Rattle.sheet.specs.Forms.{graphs_numbers, unpacked, unpack_answer};
ghost use Rattle.sheet.proofs.Parts.{unpacks, unpacks_graphs};

use super::turn::Turn;
use sheet::Refusal;
use sheet::check::{four, two};

// Bytes are read into numbers.
impl<'a> Turn for &'a [u8] {
    type To = &'static [u32];

    type Entry = u32;

    ghost made = { numbers };

    ghost all = { graphs_numbers };

    ghost parts = { unpacks };

    ghost one_by_one = { unpacks_graphs };

    // Four bytes and two numbers of four bytes.
    fn fixed(self, list: &mut [u32]) {
        list[0] = self[0] as u32;
        list[1] = self[1] as u32;
        list[2] = self[2] as u32;
        list[3] = self[3] as u32;
        list[4] = four(self, 4);
        list[5] = four(self, 8);
    }

    fn time(self, list: &mut [u32]) {
        list[0] = four(self, 0);
    }

    // Two bytes and three numbers of two bytes.
    fn channel(self, list: &mut [u32]) {
        list[0] = self[0] as u32;
        list[1] = self[1] as u32;
        list[2] = two(self, 2);
        list[3] = two(self, 4);
        list[4] = two(self, 6);
    }
}

// Answers 1 to 5 and 14; without a refusal the unpacked form stands in the first places of the list.
pub fn sheet(s: &[u8], list: &mut [u32]) -> Result<usize, Refusal>
    ensures answer { result ≡ unpack_answer s.now (length list.old) }
    ensures memory { list.new ≡ filled result (unpacked s.now) list.old }
{
    sheet::check::sheet(s)?;
    let n = s[3] as u64;
    let graphs = &s[4..];
    let all = 1 + graphs.count(n);
    if list.len() < all {
        return Err(Refusal::Room);
    }
    list[0] = n as u32;
    graphs.graphs(n, &mut list[1..]);
    Ok(all)
}
