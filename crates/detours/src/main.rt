// The program `detours`: answers the commands of standard input about the map in the file map.bin of the current folder.
//
// It only reads, calls and prints: what is printed is what `session::run_text` puts into the output. A missing map file counts as
// empty. Any other fault of reading, or want of memory for the output, ends the program with that error, and nothing is printed.
#![tactic(auto)]

use output::Output;
use reading::{read_map, read_text};
use session::run_text;
use std::io;
use std::io::Write;

fn main(rt: HostRuntime) -> io::Result<()> {
    let map = read_map(&rt)?;
    let text = read_text(&rt)?;
    let mut out = Output::new(rt.alloc())?;
    run_text(map.as_slice(), text.as_slice(), &mut out);
    rt.stdout().write_all(out.as_bytes())
}
