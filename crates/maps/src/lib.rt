// Maps of one-way streets.
//
// A map has junctions and slots, both numbered from 1; a slot is empty or holds a street. What a map means is its ghost member
// `graph`, and every implementation shows that each call answers by it and that the bounds of `lawful` hold. The calls take any
// argument, never refuse and alter nothing. Nothing here says how a map is stored: the formats do.
#![tactic(auto)]

ghost use Rattle.std.specs.Prelude.{◌≡◌, ℕ, Decides};
ghost use Rattle.maps.specs.Graph.{Graph, EqualStreets, tail_of, head_of, Leaves, Enters, Lowest, LawfulMap, reversed};
ghost use Rattle.maps.specs.Laws.{reversed_lawful};

/// A map of one-way streets.
pub trait Map {
    ghost graph: { Self → Graph };

    ghost lawful: { (x : Self) → LawfulMap (graph x) };

    /// How many junctions there are.
    fn junctions(&self) -> u16
        ensures { result ≡ (graph self.now).junctions };

    /// How many slots there are, empty ones included.
    fn slots(&self) -> u16
        ensures { result ≡ (graph self.now).slots };

    /// Tail, head and length of the street in slot e; absent if e is 0, above the slot count or an empty slot.
    fn slot(&self, e: u16) -> Option<(u16, u16, u32)>
        ensures { result ≡ (graph self.now).street e };

    /// The lowest street whose tail is v.
    fn first_leaving(&self, v: u16) -> Option<u16>
        ensures { Lowest (Leaves (graph self.now) v) 0 result };

    /// The lowest street above e with the tail of e; none for an absent e.
    fn next_leaving(&self, e: u16) -> Option<u16>
        ensures { Lowest (Leaves (graph self.now) (tail_of ((graph self.now).street e))) e result };
}

/// A map that is also followed against its streets.
pub trait TwoWay: Map {
    /// The lowest street whose head is v.
    fn first_entering(&self, v: u16) -> Option<u16>
        ensures { Lowest (Enters (Self.Map.graph self.now) v) 0 result };

    /// The lowest street above e with the head of e; none for an absent e.
    fn next_entering(&self, e: u16) -> Option<u16>
        ensures { Lowest (Enters (Self.Map.graph self.now) (head_of ((Self.Map.graph self.now).street e))) e result };
}

/// The same map with every street the other way round.
#[derive(Drop)]
pub struct Reversed<'a, M: TwoWay> {
    pub map: &'a M,
}

impl<'a, M: TwoWay> Map for Reversed<'a, M> {
    ghost graph = { λ s. reversed (M.Map.graph s.map.now) };

    ghost lawful = { λ s. reversed_lawful (M.Map.graph s.map.now) (M.Map.lawful s.map.now) };

    fn junctions(&self) -> u16 {
        self.map.junctions()
    }

    fn slots(&self) -> u16 {
        self.map.slots()
    }

    fn slot(&self, e: u16) -> Option<(u16, u16, u32)> {
        self.map
            .slot(e)
            .map(|(tail, head, length)| (head, tail, length))
    }

    fn first_leaving(&self, v: u16) -> Option<u16> {
        self.map.first_entering(v)
    }

    fn next_leaving(&self, e: u16) -> Option<u16> {
        self.map.next_entering(e)
    }
}

impl<'a, M: TwoWay> TwoWay for Reversed<'a, M> {
    fn first_entering(&self, v: u16) -> Option<u16> {
        self.map.first_leaving(v)
    }

    fn next_entering(&self, e: u16) -> Option<u16> {
        self.map.next_leaving(e)
    }
}

/// Whether each slot number answers alike in both maps.
pub fn equal_streets<M: Map, N: Map>(a: &M, b: &N) -> bool
    ensures { Decides result (EqualStreets (M.Map.graph a.now) (N.Map.graph b.now)) }
{
    let last = a.slots().max(b.slots());
    (1..=last).all(|e| a.slot(e) == b.slot(e))
}
