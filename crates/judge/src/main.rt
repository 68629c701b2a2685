// One sheet from standard input, one line to standard output: answer, place, frame load, frame, length (01, Sheets on both sides
// of each line). A sheet of more than 65,535 bytes cannot have a right length field, so it is enough to read one byte more.
#![tactic(auto)]

use shambrukit::c;
use std::io;
use std::io::Read;

fn main(rt: HostRuntime) -> io::Result<()> {
    let mut sheet = Vec::new(rt.alloc());
    rt.reader().take(65536).read_to_end(&mut sheet)?;
    let verdict = c::judge(&sheet[..]);
    println!(rt; "{verdict}")
}
