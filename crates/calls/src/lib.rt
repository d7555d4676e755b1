// The calls of an oracle's life, their faults and answers, and what whole lives of calls have to answer.
//
// What a call does and answers is defined over a moment of the oracle: plan or index, transit list, closed slots, tally.
// The last functions state theorems in their contracts, answer 0 and do nothing else; those about lives hold for every
// lawful map and every lawful kind of length. No oracle is here: the crates that have one cite these definitions.
#![tactic(auto)]

ghost use Rattle.std.specs.Prelude.{◌≡◌};
ghost use Rattle.calls.specs.Faults.{number_of};
ghost use Rattle.calls.specs.Gives.{said_of, answer_of};
ghost use Rattle.calls.specs.Claims.{LivesFit, RefusalsKeep, ClosuresFollow, LivesExist, LivesOnce};
ghost use Rattle.calls.specs.Claims.{AsksInLives, TwoLives, PromiseKept};
ghost use Rattle.calls.specs.Examples.{Solved};

use lengths::kinds_are_lawful;

/// Why a call is refused, with the number of the refusal.
#[derive(Clone, Copy, PartialEq, Eq, Debug)]
pub enum Fault {
    /// The junction to name is not on the map.
    OffMap = 11,
    /// The junction is named already.
    AlreadyNamed = 12,
    /// Sixteen junctions are named.
    ListFull = 13,
    /// The slot is absent.
    SlotAbsent = 21,
    /// The street is closed already.
    AlreadyClosed = 22,
    /// The street is not closed.
    NotClosed = 23,
    /// The start or the target is not on the map.
    EndOffMap = 24,
    /// The plan or index at that point has no such call.
    StateLacks = 53,
}

impl Fault {
    // One cast for each kind of refusal: under a trait, or as `From`, each impl would write it again.
    /// The number of the refusal.
    pub fn number(self) -> u8
        ensures { result ≡ number_of self }
    {
        self as u8
    }
}

/// A call of a plan or of an index.
#[derive(Clone, Copy, PartialEq, Eq, Debug)]
pub enum Call {
    Name(u16),
    Build,
    Close(u16),
    Reopen(u16),
    Ask(u16, u16),
    Tally,
    Replan,
}

/// What a call answers; a length and no way come with the redone count. Each case is one of the lines that a program prints, so a call
/// that is done is no `Ok`.
#[derive(Clone, Copy, PartialEq, Eq, Debug)]
pub enum Answer {
    Done,
    Length(u64, u8),
    NoWay(u8),
    Count(u16),
    Refused(Fault),
}

/// What an ask answers: the best open length, or none if there is no way, and the redone count.
#[derive(Clone, Copy, PartialEq, Eq, Debug)]
pub struct Reply {
    pub length: Option<u64>,
    pub redone: u8,
}

/// The result of a call that is done or refused, as an answer.
impl From<Result<(), Fault>> for Answer {
    ghost from_gives = { λ res answer. answer ≡ said_of res };

    fn from(res: Result<(), Fault>) -> Answer {
        match res {
            Ok(()) => Answer::Done,
            Err(fault) => Answer::Refused(fault),
        }
    }
}

/// The result of an ask, as an answer.
impl From<Result<Reply, Fault>> for Answer {
    ghost from_gives = { λ res answer. answer ≡ answer_of res };

    fn from(res: Result<Reply, Fault>) -> Answer {
        match res {
            Ok(found) => match found.length {
                Some(length) => Answer::Length(length, found.redone),
                None => Answer::NoWay(found.redone),
            },
            Err(fault) => Answer::Refused(fault),
        }
    }
}

/// Every list of calls has just one life; its moments fit the map, follow from the calls alone, and are kept by a refusal.
pub fn lives_stand() -> u8
    ensures fit { LivesFit }
    ensures refusals { RefusalsKeep }
    ensures closures { ClosuresFollow }
    ensures exist { LivesExist }
    ensures once { LivesOnce }
    ensures zero { result ≡ 0 }
{
    0
}

/// In every life asks are answered right, equal questions get equal answers, and so two lives keep the whole promise.
pub fn promise_stands() -> u8
    ensures asks { AsksInLives }
    ensures two { TwoLives }
    ensures whole { PromiseKept }
    ensures zero { result ≡ 0 }
{
    0
}

/// The definitions give the solved examples.
pub fn examples_stand() -> u8
    ensures solved { Solved }
    ensures zero { result ≡ 0 }
{
    kinds_are_lawful();
    0
}
