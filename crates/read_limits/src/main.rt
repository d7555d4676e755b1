// The program `read_limits`: says how many bytes of map file and command text are read. Its run has more of both than count.
#![tactic(auto)]

use reading::{read_map, read_text};
use std::io;

fn main(rt: HostRuntime) -> io::Result<()> {
    let map = read_map(&rt)?.len();
    let text = read_text(&rt)?.len();
    println!(rt; "map {map}, text {text}")
}
