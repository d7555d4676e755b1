// What the programs read: the map file map.bin of the current folder, and the command text of standard input.
//
// No contract can say what is read. The program read_limits shows how much of long input is, and a test that a missing map file counts as
// empty. Any other fault of reading, and want of memory, is passed on.
#![tactic(auto)]

use std::io::Read;
use std::{fs, io};

/// How many bytes of a map file are read: one more than the longest lawful file has.
pub const MAP_BYTES: u64 = 5_637;

/// How many bytes of a command text are read: one more than the longest text that is worked.
pub const TEXT_BYTES: u64 = 4_097;

// The first bytes of a source, up to a limit.
fn read_up_to(rt: &HostRuntime, source: impl Read + Drop, limit: u64) -> io::Result<Vec<u8>> {
    let mut bytes = Vec::new(rt.alloc());
    source.take(limit).read_to_end(&mut bytes)?;
    Ok(bytes)
}

/// The first bytes of the map file, as many as count; none where there is no such file.
pub fn read_map(rt: &HostRuntime) -> io::Result<Vec<u8>> {
    match fs::open(rt, "map.bin") {
        Err(e) if e.kind() == io::ErrorKind::NotFound => Ok(Vec::new(rt.alloc())),
        opened => read_up_to(rt, opened?, MAP_BYTES),
    }
}

/// The command text, and no more of it than shows that it is too long.
pub fn read_text(rt: &HostRuntime) -> io::Result<Vec<u8>> {
    read_up_to(rt, rt.stdin(), TEXT_BYTES)
}

#[cfg(test)]
mod tests {
    use super::*;
    use std::test::Fail;

    // The tests run in a folder without a map file, and without input.
    #[test]
    fn nothing_to_read(rt: HostRuntime) -> Result<(), Fail> {
        assert_eq!(rt; read_map(&rt)?.len(), 0);
        assert_eq!(rt; read_text(&rt)?.len(), 0);
        Ok(())
    }
}
