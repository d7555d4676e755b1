// The program `mapcheck`: says what the map file map.bin of the current folder holds, or with which number it is refused.
//
// A missing file counts as empty. Any other fault of reading ends the program with that error, and nothing is printed. What is printed
// is the text of `mapreport::report`.
#![tactic(auto)]

use mapreport::report;
use reading::read_map;
use std::io;

fn main(rt: HostRuntime) -> io::Result<()> {
    let bytes = read_map(&rt)?;
    let text = report(rt.alloc(), bytes.as_slice())?;
    print!(rt; "{text}")
}
