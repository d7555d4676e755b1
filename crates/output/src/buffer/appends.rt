// Making an output text, and appending a line to it.
ghost use Rattle.std.specs.Prelude.{◌≡◌, ◌+◌, ◌≤◌, [], ◌++◌, length, IfOk};
ghost use Rattle.output.specs.Room.{room, line_room};
ghost use Rattle.output.specs.Printed.{printed};
ghost use Rattle.output.specs.Written.{joined, Put};

use crate::buffer::Output;
use commands::LONGEST_TEXT;
use std::alloc::{AllocError, Global};

// How many bytes a line has at most, apart from digits that are copied.
const LINE_ROOM: usize = 56;

// How many bytes an output text has room for: 57 for each byte of the longest text.
const ROOM: usize = (LINE_ROOM + 1) * LONGEST_TEXT;

impl Output {
    // An empty output text; its memory is taken here, once.
    pub fn new(heap: Global) -> Result<Output, AllocError>
        ensures { IfOk result (λ o. printed o ≡ []) }
    {
        let bytes = Vec::with_capacity(heap, ROOM)?;
        Ok(Output { bytes })
    }

    // Takes everything out of the output text; its memory stays.
    pub fn clear(&mut self)
        ensures { printed self.new ≡ [] }
    {
        self.bytes.clear();
    }

    // The bytes of the output text.
    pub fn as_bytes(&self) -> &[u8]
        ensures { result.now ≡ printed self.now }
    {
        self.bytes.as_slice()
    }

    // Appends bytes for which there is room.
    fn push(&mut self, more: &[u8])
        requires { length (printed self.old) + length more.now ≤ room }
        ensures { printed self.new ≡ printed self.old ++ more.now }
    {
        let _ = self.bytes.extend_from_slice(more);
    }

    // Appends the line that these parts make, if there is room for the longest line with this many copied digits.
    // Parts and no `fmt::Write`: `write!` promises nothing of a text that is not written whole, and a put writes a whole line or nothing.
    pub(super) fn put_line(&mut self, digits: usize, parts: &[&[u8]])
        requires { length (joined parts.now) ≤ line_room + digits }
        ensures { Put (printed self.old) (printed self.new) digits (joined parts.now) }
    {
        if LINE_ROOM.saturating_add(digits) <= ROOM - self.bytes.len() {
            for part in parts {
                self.push(part);
            }
        }
    }
}
