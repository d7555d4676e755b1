// The entries of the priority queue: plain records with a length and a number, in the order of a
// kind of length, equal lengths by the lower number.
//
// Promised: for every lawful kind and every record that is told by its length and its number, the
// order is total, and `precedes` answers by it.
#![tactic(auto)]

ghost use Rattle.std.specs.Prelude.{◌≡◌, ℕ};
ghost use Rattle.entries.specs.Orders.{Keyed};
ghost use Rattle.entries.specs.Ranking.{keyed_total, keyed_chain, keyed_single};
ghost use Rattle.std.proofs.Common.{rules};

use lengths::Length;
use queue::Order;
use std::marker::PhantomData;

/// A record that is told by a length and a number.
pub trait Entry {
    ghost length_of: { Self → ℕ };

    ghost tie_of: { Self → ℕ };

    /// The length and the number.
    fn key(&self) -> (u64, u16)
        ensures { (result.0 ≡ length_of self.now) × (result.1 ≡ tie_of self.now) };

    ghost told: { (a b : Self) → length_of a ≡ length_of b → tie_of a ≡ tie_of b → a ≡ b };
}

/// The order of entries by the kind `K`, and of equal lengths by the lower number.
pub struct ByLength<K>(PhantomData<K>);

impl<K: Length, E: Entry> Order<E> for ByLength<K> {
    ghost ahead = { Keyed K.Length.kind E.Entry.length_of E.Entry.tie_of };

    ghost total = { keyed_total K.Length.kind K.Length.lawful E.Entry.length_of E.Entry.tie_of };

    ghost chain = { keyed_chain K.Length.kind K.Length.lawful E.Entry.length_of E.Entry.tie_of };

    ghost single = { λ a b p q.
        let e = keyed_single K.Length.kind K.Length.lawful E.Entry.length_of E.Entry.tie_of a b p q in
        E.Entry.told a b e.0 e.1 };

    fn precedes(a: &E, b: &E) -> bool {
        let (p, i) = a.key();
        let (q, j) = b.key();
        if p == q { i <= j } else { K::no_worse(p, q) }
    }
}

/// A street that a run may take next: the length that it would give its head, and its slot.
#[derive(Clone, Copy, PartialEq, Eq, Debug)]
pub struct Candidate {
    pub length: u64,
    pub slot: u16,
}

impl Entry for Candidate {
    ghost length_of = { λ c. c.length };

    ghost tie_of = { λ c. c.slot };

    ghost told = { Prim.search rules };

    fn key(&self) -> (u64, u16) {
        (self.length, self.slot)
    }
}

/// A transit node that is met over the legs: its length from the start, and its position in the list. A record of its own, so that no
/// position is taken for a slot.
#[derive(Clone, Copy, PartialEq, Eq, Debug)]
pub struct Node {
    pub length: u64,
    pub position: u16,
}

impl Entry for Node {
    ghost length_of = { λ n. n.length };

    ghost tie_of = { λ n. n.position };

    ghost told = { Prim.search rules };

    fn key(&self) -> (u64, u16) {
        (self.length, self.position)
    }
}
