// Bounded trees: the bounded run over a map, from a root along the streets or against them, past no transit node but
// the root and over no closed street, by a priority queue of street candidates.
//
// Promised, for every lawful map and every lawful kind of length: the table that a run leaves is exactly the one of
// the bounded run as it is defined, slots and ties included, for every root on the map, every transit list and all
// closed marks; a root off the map settles nothing. Every call takes any number, refuses nothing and ends, and no
// candidate is lost for want of a place. Nothing is allocated.
// Not promised here: what the defined run means in walks. The theorems of `walks` say it.
#![tactic(auto)]

ghost use Rattle.std.specs.Prelude.{◌≡◌, ℕ, ◌<◌, ◌≤◌, true, false, is_some, Some, None};
ghost use Rattle.maps.specs.Graph.{reversed};
ghost use Rattle.walks.specs.Streets.{empty_set, member};
ghost use Rattle.walks.specs.Runs.{settle as settled_by, bounded_run};
ghost use Rattle.walks.specs.Trees.{OnMap, tree as tree_of};
ghost use Rattle.trees.specs.Marks.{closed_in};
ghost use Rattle.trees.specs.Trees.{table_of};
ghost use Rattle.trees.specs.Runs.{none_settled, run_on};

use lengths::Zeroed;
use maps::{Map, Reversed, TwoWay};
use run::{Limits, run_within};

mod run;

/// The slot of each settled junction, by its number less one, and its length at the same place. Two arrays, and no array of pairs: a pair
/// with its option takes twice the bytes, and trees are copied.
#[derive(Clone, Copy)]
pub struct BoundedTree {
    slots: [Option<u16>; 128],
    lengths: [u64; 128],
}

impl BoundedTree {
    /// No junction is settled.
    pub fn empty() -> BoundedTree
        ensures { table_of result ≡ none_settled }
    {
        BoundedTree {
            slots: [None; 128],
            lengths: [0; 128],
        }
    }

    /// Slot and length of junction v; absent if it is not settled, so also for 0 and for every number above 128.
    pub fn get(&self, v: u16) -> Option<(u16, u64)>
        ensures { result ≡ table_of self.now v }
    {
        // For junction 0 the largest index of all, past the slots: one test serves every number.
        let i = usize::from(v).wrapping_sub(1);
        let slot = (*self.slots.get(i)?)?;
        Some((slot, self.lengths[i]))
    }

    // Settles junction v.
    fn settle(&mut self, v: u16, slot: u16, length: u64)
        requires { (0 < v) × (v ≤ 128) }
        ensures { table_of self.new ≡ settled_by (table_of self.old) (Some (v, slot, length)) }
    {
        let i = usize::from(v) - 1;
        self.slots[i] = Some(slot);
        self.lengths[i] = length;
    }
}

/// Whether slot e is closed, for every number e.
pub fn is_closed(closed: &[bool; 512], e: u16) -> bool
    ensures { result ≡ closed_in closed.now e }
{
    (1..=512).contains(&e) && closed[usize::from(e) - 1]
}

/// Whether v stands in the list.
#[tactic(auto, using(crate::proofs::Tables::member_any))]
pub fn is_listed(list: &[u16], v: u16) -> bool
    ensures { result ≡ member list.now v }
{
    list.contains(&v)
}

// Map, list and root stay parameters: callers go over many roots of one map and list.

/// The bounded run from a root along the streets: past no other junction of the transit list and over no closed
/// street. A root off the map settles nothing.
pub fn bounded_run<M: Map, K: Zeroed>(
    map: &M,
    transit: &[u16],
    closed: &[bool; 512],
    root: u16,
) -> BoundedTree
    ensures run { table_of result ≡ run_on K.Length.kind (M.Map.graph map.now) transit.now (closed_in closed.now) root }
    ensures on_map { OnMap (M.Map.graph map.now) root → table_of result ≡ bounded_run K.Length.kind (M.Map.graph map.now) transit.now (closed_in closed.now) root }
{
    if root > 0 && root <= map.junctions() {
        let limits = Limits {
            transit,
            closed,
            root,
        };
        run_within::<M, K>(map, limits)
    } else {
        BoundedTree::empty()
    }
}

/// The bounded run from a root against the streets: the run over the map with every street the other way round.
pub fn bounded_run_against<M: TwoWay, K: Zeroed>(
    map: &M,
    transit: &[u16],
    closed: &[bool; 512],
    root: u16,
) -> BoundedTree
    ensures run { table_of result ≡ run_on K.Length.kind (reversed (M.Map.graph map.now)) transit.now (closed_in closed.now) root }
    ensures on_map { OnMap (M.Map.graph map.now) root → table_of result ≡ bounded_run K.Length.kind (reversed (M.Map.graph map.now)) transit.now (closed_in closed.now) root }
{
    bounded_run::<Reversed<'_, M>, K>(&Reversed { map }, transit, closed, root)
}

// Marks that close nothing.
fn no_marks() -> [bool; 512]
    ensures { closed_in result ≡ empty_set }
{
    [false; 512]
}

/// The tree of a transit node: the bounded run from it without any closure.
pub fn bounded_tree<M: Map, K: Zeroed>(map: &M, transit: &[u16], root: u16) -> BoundedTree
    ensures run { table_of result ≡ run_on K.Length.kind (M.Map.graph map.now) transit.now empty_set root }
    ensures on_map { OnMap (M.Map.graph map.now) root → table_of result ≡ tree_of K.Length.kind (M.Map.graph map.now) transit.now root }
{
    bounded_run::<M, K>(map, transit, &no_marks(), root)
}
