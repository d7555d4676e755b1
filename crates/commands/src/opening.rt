// The opening of a text: its size, and the word of its first line.
ghost use Rattle.std.specs.Prelude.{◌≡◌, IfOk, MatchResult};
ghost use Rattle.commands.specs.Text.{CutAtEnd};
ghost use Rattle.commands.specs.Words.{word, Names, fault_number, Begins, Faulty};

use crate::lines::first_line;

// The most bytes that a text may have.
pub const LONGEST_TEXT: usize = 4_096;

// The kind of length that the first line names.
#[derive(Clone, Copy, PartialEq, Eq, Debug)]
pub enum KindWord {
    Paces,
    Gates,
}

// Why a text is refused.
#[derive(Clone, Copy)]
pub enum TextFault {
    // The text has more than 4,096 bytes.
    TooLong = 55,
    // The first line is missing, or is neither word.
    NoKind = 54,
}

impl TextFault {
    // One cast for each kind of refusal: under a trait, or as `From`, each impl would write it again.
    // The number of the refusal.
    pub fn number(self) -> u8
        ensures { result ≡ fault_number self }
    {
        self as u8
    }
}

// The kind that a line names, byte for byte.
pub fn kind_of(line: &[u8]) -> Option<KindWord>
    ensures { Names line.now result }
{
    match line {
        b"paces" => Some(KindWord::Paces),
        b"gates" => Some(KindWord::Gates),
        _ => None,
    }
}

// The kind that the first line names, and the text after that line.
pub fn open_text(text: &[u8]) -> Result<(KindWord, &[u8]), TextFault>
    ensures opened { MatchResult result (λ p. Begins text.now p.0 p.1.now) (λ e. Faulty text.now e) }
    ensures whole { IfOk result (λ p. CutAtEnd text.now (word p.0) p.1.now) }
{
    if text.len() > LONGEST_TEXT {
        return Err(TextFault::TooLong);
    }
    let (line, rest) = first_line(text).ok_or(TextFault::NoKind)?;
    let kind = kind_of(line).ok_or(TextFault::NoKind)?;
    Ok((kind, rest))
}
