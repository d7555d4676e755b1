// The tokens of a line: what stands between its spaces. Each is a part of the line.
ghost use Rattle.std.specs.Prelude.{◌≡◌, MatchOption};
ghost use Rattle.commands.specs.Numbers.{IsNumeral};
ghost use Rattle.commands.specs.Parts.{Front, Valued};

use crate::scan::length_before;

// A number: one or more digits as they stand in the line, and what they write, if that is at most 65,535.
#[derive(Clone, Copy)]
pub struct Numeral<'a> {
    pub digits: &'a [u8],
    pub value: Option<u16>,
}

// A token of a line.
#[derive(Clone, Copy)]
pub enum Token<'a> {
    // Any bytes that are no number, also none.
    Word(&'a [u8]),
    Number(Numeral<'a>),
}

// The number that the bytes are, if they are one.
fn number_of(bytes: &[u8]) -> Option<Numeral<'_>>
    ensures { MatchOption result (IsNumeral bytes.now → ⊥) (λ n. (n.digits ≡ bytes.entry) × Valued n) }
{
    if bytes.is_empty() {
        return None;
    }
    // Stays at 65,536 once it is more: a number may have any count of digits, and an option of each value on the way takes longer.
    let mut value = 0u32;
    for b in bytes {
        if !b.is_ascii_digit() {
            return None;
        }
        value = (value * 10 + u32::from(*b - b'0')).min(65_536);
    }
    Some(Numeral {
        digits: bytes,
        value: u16::try_from(value).ok(),
    })
}

// The token before the first space, or to the end, and what follows it: nothing, or a space and more.
pub fn next_token(text: &[u8]) -> (Token<'_>, &[u8])
    ensures { Front text.now result.0 result.1.now }
{
    let (bytes, rest) = text.split_at(length_before(text, b' '));
    match number_of(bytes) {
        Some(number) => (Token::Number(number), rest),
        None => (Token::Word(bytes), rest),
    }
}
