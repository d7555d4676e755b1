// A search over legs: what is reached, what waits, and how it goes on.
ghost use Rattle.std.specs.Prelude.{◌≡◌, ◌<◌, ◌≤◌, ◌∷◌, length, Some, None, nat_eq};
ghost use Rattle.std.specs.Map.{update};
ghost use Rattle.std.specs.List.{AllByRecursion};
ghost use Rattle.std.specs.List.Sorted.{IsPermutation};
ghost use Rattle.queue.specs.Queues.{held, room, Ordered};
ghost use Rattle.entries.specs.Records.{NodeAhead};
ghost use Rattle.legs.specs.Tables.{length_at};
ghost use Rattle.legs.specs.Searches.{adding, adding_all};
ghost use Rattle.legs.specs.Turns.{positions_in, legs_out, HasRoom, turns_left, GoesOn, Puts, Stands};

use super::{GOAL, LegTable, Reached};
use entries::{ByLength, Node};
use lengths::Length;
use queue::PriorityQueue;

// Places for the nodes that wait: one for each node from the start, and one for each pair of the other 17.
pub(crate) const PLACES: usize = 153;

/// A search: the legs that it goes over, the nodes that are reached, and those that wait.
#[derive(Drop)]
pub(crate) struct Search<'a, 'b> {
    pub(crate) legs: &'a LegTable,
    pub(crate) reached: Reached,
    pub(crate) queue: PriorityQueue<'b, Node>,
}

// Heap order is carried by contracts, as in the queue itself, and is no invariant of the search: each step that puts asks for it.
impl Search<'_, '_> {
    // Puts node `to`, unless it is reached, if a leg leads there from `from`, whose length is `walked`.
    fn put_leg<K: Length>(&mut self, from: u16, to: u16, walked: u64)
        requires node { to < 32 }
        requires ordered { Ordered (NodeAhead K.Length.kind) self.old.queue }
        requires fits { length_at self.old.reached to ≡ None → length (held self.old.queue) < room self.old.queue }
        ensures { Puts K.Length.kind (adding K.Length.kind walked to (legs_out self.old from to) (held self.old.queue)) self.old self.new }
    {
        if self.reached.length(to).is_none()
            && let Some(leg) = self.legs.leg(from, to)
        {
            let length = K::join(walked, leg);
            let _ = self.queue.put::<ByLength<K>>(Node {
                length,
                position: to,
            });
        }
    }

    // Puts each node to which a leg leads from `from`, whose length is `walked`, unless it is reached.
    fn put_legs<K: Length>(&mut self, from: u16, walked: u64)
        requires ordered { Ordered (NodeAhead K.Length.kind) self.old.queue }
        requires fits { HasRoom (length_at self.old.reached) self.old }
        ensures { Puts K.Length.kind (adding_all K.Length.kind (legs_out self.old from) walked (positions_in self.old) (held self.old.queue)) self.old self.new }
    {
        for to in 1..=self.legs.count {
            self.put_leg::<K>(from, to, walked);
        }
        self.put_leg::<K>(from, GOAL, walked);
    }

    // The node is reached, its length is `walked`, and it is left over its legs.
    pub(crate) fn reach<K: Length>(&mut self, node: u16, walked: u64)
        requires node { node < 32 }
        requires ordered { Ordered (NodeAhead K.Length.kind) self.old.queue }
        requires fits { HasRoom (update nat_eq (length_at self.old.reached) node (Some walked)) self.old }
        ensures goes_on { GoesOn K.Length.kind self.old self.new }
        ensures lengths { length_at self.new.reached ≡ update nat_eq (length_at self.old.reached) node (Some walked) }
        ensures held { IsPermutation (adding_all K.Length.kind (legs_out self.new node) walked (positions_in self.old) (held self.old.queue)) (held self.new.queue) }
    {
        self.reached.settle(node, walked);
        self.put_legs::<K>(node, walked);
    }

    // One turn: the best node that waits is reached, with its length, unless it was reached before.
    pub(crate) fn visit<K: Length>(&mut self, best: Node)
        requires ordered { Ordered (NodeAhead K.Length.kind) self.old.queue }
        requires fits { PLACES ≤ room self.old.queue }
        requires searched { Stands K.Length.kind self.old (best ∷ held self.old.queue) }
        requires best { AllByRecursion (NodeAhead K.Length.kind best) (held self.old.queue) }
        ensures goes_on { GoesOn K.Length.kind self.old self.new }
        ensures searched { Stands K.Length.kind self.new (held self.new.queue) }
        ensures less { turns_left self.new ≤ turns_left self.old }
    {
        if self.reached.length(best.position).is_none() {
            self.reach::<K>(best.position, best.length);
        }
    }
}
