// The lines of a text, one after another.
ghost use Rattle.std.specs.Prelude.{◌≡◌, [], IfSome, MatchOption};
ghost use Rattle.std.specs.Iterator.{YieldsFirstRef, item_count};
ghost use Rattle.commands.specs.Lines.{lines_left};
ghost use Rattle.commands.specs.Text.{lines_of, FirstLine, CutAtEnd, LinesStand};

use crate::scan::length_before;

// The first line, without its end, and the text after it; none if the text has no line.
pub fn first_line(text: &[u8]) -> Option<(&[u8], &[u8])>
    ensures first { MatchOption result (lines_of text.now ≡ []) (λ p. FirstLine text.now p.0.now p.1.now) }
    ensures whole { IfSome result (λ p. CutAtEnd text.now p.0.now p.1.now) }
{
    if text.is_empty() {
        return None;
    }
    let (line, rest) = text.split_at(length_before(text, b'\n'));
    Some((line, rest.get(1..).unwrap_or(rest)))
}

// The lines of a text, one after another, each without its end.
#[derive(Drop)]
pub struct Lines<'a> {
    rest: &'a [u8],
}

impl<'a> Lines<'a> {
    // The lines of this text.
    pub fn new(text: &'a [u8]) -> Lines<'a>
        ensures { lines_left result ≡ lines_of text.now }
    {
        Lines { rest: text }
    }
}

impl<'a> Iterator for Lines<'a> {
    type Item = &'a [u8];

    ghost next_gives = { YieldsFirstRef lines_left };

    ghost remaining = { item_count lines_left };

    fn next(&mut self) -> Option<&'a [u8]> {
        let (line, rest) = first_line(self.rest)?;
        self.rest = rest;
        Some(line)
    }
}

// The lines of a text are the parts between its line ends, the last part only if it has a byte.
pub fn lines_stand() -> u8
    ensures value { result ≡ 0 }
    ensures lines { LinesStand }
{
    0
}
