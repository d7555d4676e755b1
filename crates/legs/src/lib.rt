// Legs between transit nodes, and the best ways over them.
//
// A `LegTable` holds the lengths from the start to each of at most 16 list positions, between positions, from each position to
// the goal, and from the start straight to the goal, each present or absent. `search` finds the best of all ways over them.
//
// Promised, for every table and every lawful kind of length: each call takes any numbers, and one that names no leg changes
// nothing; `search` leaves each node with the best length of all ways over the legs from the start, or none exactly if no way
// leads there. Every put into its queue finds a place. Nothing is allocated.
// Not promised: over which legs a best way goes. Whether the legs are those of a map is not known here.
#![tactic(auto)]

ghost use Rattle.std.specs.Prelude.{◌≡◌, ℕ, ◌<◌, is_some, Some, None, nat_eq};
ghost use Rattle.std.specs.Map.{update};
ghost use Rattle.walks.specs.Streets.{empty_set};
ghost use Rattle.walks.specs.Trees.{Tells};
ghost use Rattle.walks.specs.Walks.{Leads, BestOpen};
ghost use Rattle.walks.specs.Legs.{grid};
ghost use Rattle.legs.specs.Tables.{leg_of, length_at, position_at};

use entries::{ByLength, Node};
use lengths::{Zeroed, zero_of};
use queue::PriorityQueue;

mod searching;
mod table;

use searching::{PLACES, Search};
pub use table::LegTable;

// The node that stands for the goal. Nodes stay numbers: legs are the streets of a small graph with numbered nodes, for which the one
// theory of runs serves.
const GOAL: u16 = 31;

/// The best lengths from the start of the ways over legs.
#[derive(Clone, Copy)]
pub struct Reached {
    lengths: [Option<u64>; 32],
}

impl Reached {
    /// The best length to the goal, absent where no way leads there.
    pub fn goal(&self) -> Option<u64>
        ensures { result ≡ length_at self.now 31 }
    {
        self.length(GOAL)
    }

    /// The best length to a list position, absent where no way leads there and for any other number.
    pub fn position(&self, i: u16) -> Option<u64>
        ensures { result ≡ position_at self.now i }
    {
        if (1..=16).contains(&i) {
            self.length(i)
        } else {
            None
        }
    }

    // No node is reached.
    fn none() -> Reached
        ensures { length_at result ≡ (λ _. None) }
    {
        Reached {
            lengths: [None; 32],
        }
    }

    // The length of a node, absent if it is not reached. Its callers have a node of the graph; any other number goes through `position`.
    fn length(&self, node: u16) -> Option<u64>
        requires { node < 32 }
        ensures { result ≡ length_at self.now node }
    {
        self.lengths[usize::from(node)]
    }

    // The node is reached, with this length.
    fn settle(&mut self, node: u16, length: u64)
        requires { node < 32 }
        ensures { length_at self.new ≡ update nat_eq (length_at self.old) node (Some length) }
    {
        self.lengths[usize::from(node)] = Some(length);
    }
}

/// The best of all ways over the legs from the start, to every node.
pub fn search<K: Zeroed>(legs: &LegTable) -> Reached
    ensures best { (v : ℕ) → BestOpen K.Length.kind (grid (leg_of legs.now)) empty_set 0 v (length_at result v) }
    ensures reached { (v : ℕ) → Tells (is_some (length_at result v)) (Leads (grid (leg_of legs.now)) empty_set 0 v) }
{
    let mut places = [Node {
        length: 0,
        position: 0,
    }; PLACES];
    let mut run = Search {
        legs,
        reached: Reached::none(),
        queue: PriorityQueue::new::<ByLength<K>>(&mut places),
    };
    run.reach::<K>(0, zero_of::<K>());
    while let Some(best) = run.queue.take::<ByLength<K>>() {
        run.visit::<K>(best);
    }
    run.reached
}
