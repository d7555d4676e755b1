// The kinds of length. A length is stored as a code, a whole number below 2^64; a kind fixes its
// zero, how two codes are joined, and when one code is no worse than another.
//
// Promised of every kind, for all codes: the laws of `LawfulKind` in specs/Kinds.antt, and that join,
// test and zero answer by the kind's meaning. Paces and gates are the two kinds here.
// Nothing is said of numbers that are no codes.
#![tactic(auto)]

ghost use Rattle.std.specs.Prelude.{◌≡◌, ℕ, ◌-◌, ◌^◌, refl};
ghost use Rattle.lengths.specs.Kinds.{Kind, LawfulKind, paces, gates};
ghost use Rattle.lengths.specs.Laws.{KindsLawful};
ghost use Rattle.std.proofs.Common.{rules};

/// A kind of length: how codes are joined and compared.
pub trait Length {
    ghost kind: { Kind };

    /// The code of two lengths one after the other.
    fn join(a: u64, b: u64) -> u64
        ensures { result ≡ kind.join a b };

    /// Whether the code `a` is no worse than the code `b`.
    fn no_worse(a: u64, b: u64) -> bool
        ensures { result ≡ kind.no_worse a b };

    ghost lawful: { LawfulKind kind };
}

/// A kind of length with its zero as a constant.
pub trait Zeroed: Length {
    ghost ZERO: { ℕ };

    const ZERO: u64;

    ghost fixed: { ZERO ≡ Self.Length.kind.zero };
}

/// Paces add up, to 2^64 - 1 at most; fewer are better.
#[derive(Clone, Copy, PartialEq, Eq, Debug, Default)]
pub struct Paces;

impl Length for Paces {
    ghost kind = { paces };

    ghost lawful = { Prim.search rules };

    fn join(a: u64, b: u64) -> u64 {
        a.saturating_add(b)
    }

    fn no_worse(a: u64, b: u64) -> bool {
        a <= b
    }
}

impl Zeroed for Paces {
    ghost ZERO = { 0 };

    const ZERO: u64 = 0;

    ghost fixed = { refl };
}

/// A way is as wide as its narrowest gate; wider is better.
#[derive(Clone, Copy, PartialEq, Eq, Debug, Default)]
pub struct Gates;

impl Length for Gates {
    ghost kind = { gates };

    ghost lawful = { Prim.search rules };

    fn join(a: u64, b: u64) -> u64 {
        a.min(b)
    }

    fn no_worse(a: u64, b: u64) -> bool {
        a >= b
    }
}

impl Zeroed for Gates {
    ghost ZERO = { 2 ^ 64 - 1 };

    const ZERO: u64 = u64::MAX;

    ghost fixed = { refl };
}

/// The zero of a kind.
pub fn zero_of<K: Zeroed>() -> u64
    ensures { result ≡ K.Length.kind.zero }
{
    K::ZERO
}

/// Says that paces and gates keep the laws.
pub fn kinds_are_lawful()
    ensures { KindsLawful }
{}

#[cfg(test)]
mod tests {
    use super::*;
    use std::process::Abort;

    const TOP: u64 = u64::MAX;

    // Each row holds two codes and their join; the order of the two makes no difference.
    fn joins<K: Length>(rt: &impl Abort, rows: &[(u64, u64, u64)]) {
        for &(a, b, joined) in rows {
            assert_eq!(rt; K::join(a, b), joined);
            assert_eq!(rt; K::join(b, a), joined);
        }
    }

    // Each row holds a code and one that is worse.
    fn falls<K: Length>(rt: &impl Abort, rows: &[(u64, u64)]) {
        for &(better, worse) in rows {
            assert!(rt; K::no_worse(better, better));
            assert!(rt; K::no_worse(better, worse));
            assert!(rt; !K::no_worse(worse, better));
        }
    }

    #[test]
    fn paces_at_the_top(rt: HostRuntime) {
        joins::<Paces>(
            &rt,
            &[
                (3, 4, 7),
                (0, 9, 9),
                (0, TOP, TOP),
                (TOP - 1, 1, TOP),
                (TOP, 1, TOP),
                (TOP, TOP, TOP),
            ],
        );
        falls::<Paces>(&rt, &[(0, 1), (TOP - 1, TOP), (0, TOP)]);
        assert_eq!(rt; zero_of::<Paces>(), 0);
    }

    #[test]
    fn gates_at_the_top(rt: HostRuntime) {
        joins::<Gates>(
            &rt,
            &[
                (3, 4, 3),
                (0, 9, 0),
                (0, TOP, 0),
                (TOP - 1, 1, 1),
                (TOP, 1, 1),
                (TOP, TOP - 1, TOP - 1),
            ],
        );
        falls::<Gates>(&rt, &[(1, 0), (TOP, TOP - 1), (TOP, 0)]);
        assert_eq!(rt; zero_of::<Gates>(), 18_446_744_073_709_551_615);
    }
}
