// The plain tables of an oracle, and reading them.
//
// Their fields are open to the crates that close, build and ask by them; the oracle keeps its own out of reach. What is written to them is
// said by those crates, as that the tables fit map and kind, which is defined here.
//
// Promised: new tables stand for a new plan; an entry of a stored tree, a position of a row of the inverted index and a length in a tree
// are read for every number, absent outside their range; a row of a leg table is filled from a tree for every table, position and list.
// No call refuses anything or asks anything of its caller. Nothing is allocated.
// Not promised here: that the tables fit a map. The crates above say what each call leaves in them.
#![tactic(auto)]

ghost use Rattle.std.specs.Prelude.{◌≡◌, ◌-◌, false, length, if◌then◌else◌, None, nat_le};
ghost use Rattle.std.specs.List.{slice_get};
ghost use Rattle.asks.specs.Handed.{is_position};
ghost use Rattle.calls.specs.Moments.{created};
ghost use Rattle.tables.specs.Tables.{transit_of, moment_of, tree_in, list_of};

use arrayvec::ArrayVec;
use legs::LegTable;
use trees::BoundedTree;

mod rows;

pub use rows::{fill_row, length_in};

/// A stored tree, with the number of closed streets that it holds.
#[derive(Clone, Copy)]
pub struct TreeRecord {
    pub tree: BoundedTree,
    pub closed: u16,
}

/// The list positions, rising, of the trees that hold one street: the first `count` of the positions. An array beside its length, since a
/// row is copied like a number, which an `ArrayVec` is not.
#[derive(Clone, Copy, Default)]
pub struct Holders {
    pub positions: [u16; 16],
    pub count: usize,
}

/// What an oracle keeps beside its map: closure marks, transit list and tally; and, once it is built, the trees with their counts,
/// the legs between transit nodes, and for each slot the trees that hold it. The tree of a transit node stands at its place in the list,
/// and past the list's end none is read.
#[derive(Drop)]
pub struct Tables {
    pub closed: [bool; 512],
    pub transit: ArrayVec<u16, 16>,
    pub tally: u16,
    // An array made by repetition, and no short list: its entries are all the memory that trees ever need.
    pub trees: [TreeRecord; 16],
    pub legs: LegTable,
    pub holders: [Holders; 512],
}

impl Holders {
    /// The k-th position of the row, k from 1; absent outside its range.
    pub fn nth_position(&self, k: u16) -> Option<u16>
        ensures { result ≡ (if nat_le 1 k then slice_get (list_of self.now) (k - 1) else None) }
    {
        let at = usize::from(k.checked_sub(1)?);
        self.positions[..self.count.min(16)].get(at).copied()
    }
}

impl Tables {
    /// The tables of a new plan: nothing named, nothing closed, tally 0.
    pub fn new() -> Tables
        ensures { moment_of false result ≡ created }
    {
        Tables {
            closed: [false; 512],
            transit: ArrayVec::new(),
            tally: 0,
            trees: [TreeRecord {
                tree: BoundedTree::empty(),
                closed: 0,
            }; 16],
            legs: LegTable::new(0),
            holders: [Holders::default(); 512],
        }
    }

    /// Slot and length of junction v in the tree at a list position, counted from 1; absent outside the list.
    pub fn tree_entry(&self, position: u16, v: u16) -> Option<(u16, u64)>
        ensures { result ≡ (if is_position (length (transit_of self.now)) position then tree_in self.now.trees position v else None) }
    {
        let at = usize::from(position.checked_sub(1)?);
        let record = self.trees[..self.transit.len()].get(at)?;
        record.tree.get(v)
    }
}
