// Many sheets from standard input, each behind its length in 4 bytes, big-endian; a line for each, as the program `judge` prints
// it.
#![tactic(auto)]

use shambrukit::c;
use std::alloc::Global;
use std::io;
use std::io::Read;

// Up to n bytes of the input: fewer only where it ends.
fn next_bytes<R: Read>(alloc: Global, input: &mut R, n: u32) -> io::Result<Vec<u8>> {
    let mut bytes = Vec::new(alloc);
    input.by_ref().take(n as u64).read_to_end(&mut bytes)?;
    Ok(bytes)
}

// The next sheet, if one follows. A length above 65,535 ends the input.
fn next_sheet<R: Read>(alloc: Global, input: &mut R) -> io::Result<Option<Vec<u8>>> {
    let head = next_bytes(alloc, input, 4)?;
    if head.len() < 4 {
        return Ok(None);
    }
    let length = sheet::check::four(&head, 0);
    if 65535 < length {
        return Ok(None);
    }
    Ok(Some(next_bytes(alloc, input, length)?))
}

fn main(rt: HostRuntime) -> io::Result<()> {
    let mut input = rt.reader();
    for _ in 0..100_000 {
        let Some(sheet) = next_sheet(rt.alloc(), &mut input)? else {
            break;
        };
        let verdict = c::judge(&sheet[..]);
        println!(rt; "{verdict}")?;
    }
    Ok(())
}
