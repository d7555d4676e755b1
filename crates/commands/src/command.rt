// The call that a line spells.
ghost use Rattle.std.specs.Prelude.{◌≡◌, MatchOption};
ghost use Rattle.commands.specs.Outcome.{line_fault_number, Outcome, Exact, Within, OneReading};
ghost use Rattle.commands.specs.Reading.{NoNumber, SpacedNumber, Follow, NoNumbers, small_of, decided};

use crate::tokens::{Numeral, Token, next_token};
use calls::Call;

// Why a line is no call.
#[derive(Clone, Copy)]
pub enum LineFault<'a> {
    // The line has none of the forms.
    NoForm,
    // A number is above 65,535: the digits of the first such number, as they stand in the line.
    TooLarge(&'a [u8]),
}

impl LineFault<'_> {
    // The number of the refusal. By cases, since a variant that holds digits has no discriminant.
    pub fn number(self) -> u8
        ensures { result ≡ line_fault_number self.entry }
    {
        match self {
            LineFault::NoForm => 51,
            LineFault::TooLarge(_) => 52,
        }
    }
}

// The numbers that follow the letter of a command.
#[derive(Clone, Copy)]
enum Numbers<'a> {
    Zero,
    One(Numeral<'a>),
    Two(Numeral<'a>, Numeral<'a>),
}

// A space and a number at the front of the text, and what follows the number.
fn spaced_number(text: &[u8]) -> Option<(Numeral<'_>, &[u8])>
    ensures { MatchOption result (NoNumber text.now) (λ p. SpacedNumber text.now p.0 p.1.now) }
{
    match next_token(text.strip_prefix(b" ")?) {
        (Token::Number(number), rest) => Some((number, rest)),
        (Token::Word(_), _) => None,
    }
}

// The numbers of which the text consists, each after one space; none if there are more than two, or something else.
fn numbers_of(text: &[u8]) -> Option<Numbers<'_>>
    ensures { MatchOption result (NoNumbers 2 text.now) (Follow text.now) }
{
    if text.is_empty() {
        return Some(Numbers::Zero);
    }
    let (a, rest) = spaced_number(text)?;
    if rest.is_empty() {
        return Some(Numbers::One(a));
    }
    let (b, end) = spaced_number(rest)?;
    if end.is_empty() {
        Some(Numbers::Two(a, b))
    } else {
        None
    }
}

// The value of a number up to 65,535, or the digits of a larger one.
fn small(number: Numeral<'_>) -> Result<u16, LineFault<'_>>
    ensures { result ≡ small_of number.entry }
{
    number.value.ok_or(LineFault::TooLarge(number.digits))
}

// The call of a letter and its numbers.
fn decide(letter: u8, numbers: Numbers<'_>) -> Result<Call, LineFault<'_>>
    ensures { result ≡ decided letter numbers.entry }
{
    match (char::from(letter), numbers) {
        ('B', Numbers::Zero) => Ok(Call::Build),
        ('N', Numbers::Zero) => Ok(Call::Tally),
        ('P', Numbers::Zero) => Ok(Call::Replan),
        ('T', Numbers::One(v)) => Ok(Call::Name(small(v)?)),
        ('C', Numbers::One(v)) => Ok(Call::Close(small(v)?)),
        ('R', Numbers::One(v)) => Ok(Call::Reopen(small(v)?)),
        ('Q', Numbers::Two(s, t)) => Ok(Call::Ask(small(s)?, small(t)?)),
        _ => Err(LineFault::NoForm),
    }
}

// The call that a line spells with numbers up to 65,535, or why there is none.
pub fn read_command(line: &[u8]) -> Result<Call, LineFault<'_>>
    ensures outcome { Outcome line.now result }
    ensures exact { Exact line.now result }
    ensures within { Within line.now result }
{
    let (first, rest) = next_token(line);
    let Token::Word(word) = first else {
        return Err(LineFault::NoForm);
    };
    let [letter] = word else {
        return Err(LineFault::NoForm);
    };
    let numbers = numbers_of(rest).ok_or(LineFault::NoForm)?;
    decide(*letter, numbers)
}

// A line spells at most one call, with one list of numbers as written.
pub fn grammar_stands() -> u8
    ensures value { result ≡ 0 }
    ensures reading { OneReading }
{
    0
}
