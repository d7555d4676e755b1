// Building in the tables of a plan: what an index stores beside its map.
//
// Promised, for every lawful map and every lawful kind of length: stored are the defined tree of each transit node, worked out without any
// closure, the number of closed streets that it holds, the legs between transit nodes, and for each slot the rising positions of the trees
// that hold it; closures, transit list and tally are as before. All that is asked is that the tables of the plan fit the map.
// Nothing is allocated.
// Not promised here: how the stored trees answer questions. The crate `answering` says it.
#![tactic(auto)]

ghost use Rattle.std.specs.Prelude.{◌≡◌, ℕ, ◌+◌, ◌-◌, ◌<◌, ◌≤◌, [], ◌∷◌, ◌++◌, length, slice_index_or};
ghost use Rattle.std.specs.List.{AllByRecursion};
ghost use Rattle.walks.specs.Trees.{OnMap, tree as tree_of, holds_street};
ghost use Rattle.asks.specs.Held.{closed_held};
ghost use Rattle.legs.specs.Tables.{positions_of, leg_of};
ghost use Rattle.trees.specs.Marks.{closed_in};
ghost use Rattle.trees.specs.Trees.{table_of};
ghost use Rattle.tables.specs.Tables.{list_of, no_holders, holders_in};
ghost use Rattle.tables.specs.Fits.{PlanFits, IndexFits};
ghost use Rattle.storing.specs.Records.{TreesStored, tree_legs, tree_positions};

use counts::closed_held;
use legs::LegTable;
use lengths::Zeroed;
use maps::Map;
use tables::{Holders, Tables, TreeRecord, fill_row};
use trees::{BoundedTree, bounded_tree};

mod counts;

// The tree of a transit node, without any closure, with the number of closed streets that it holds.
fn tree_record<M: Map, K: Zeroed>(
    map: &M,
    transit: &[u16],
    closed: &[bool; 512],
    root: u16,
) -> TreeRecord
    ensures tree { OnMap (M.Map.graph map.now) root → table_of result.tree ≡ tree_of K.Length.kind (M.Map.graph map.now) transit.now root }
    ensures count { result.closed ≡ closed_held (closed_in closed.now) (table_of result.tree) (M.Map.graph map.now).junctions }
{
    let tree = bounded_tree::<M, K>(map, transit, root);
    let held = closed_held(&tree, closed, map.junctions());
    TreeRecord { tree, closed: held }
}

// The tree of each transit node, with the number of closed streets that it holds.
fn store_trees<M: Map, K: Zeroed>(
    map: &M,
    transit: &[u16],
    closed: &[bool; 512],
    trees: &mut [TreeRecord; 16],
)
    requires few { length transit.now ≤ 16 }
    requires on_map { AllByRecursion (OnMap (M.Map.graph map.now)) transit.now }
    ensures { TreesStored K.Length.kind (M.Map.graph map.now) transit.now (closed_in closed.now) trees.new (length transit.now) }
{
    // Written by index: over a zip of `iter_mut` no invariant can name the records.
    for (i, root) in transit.iter().enumerate() {
        trees[i] = tree_record::<M, K>(map, transit, closed, *root);
    }
}

// The leg from each list position to each other one, by the trees of the list.
fn stored_legs(transit: &[u16], trees: &[TreeRecord]) -> LegTable
    requires few { length transit.now ≤ 16 }
    requires trees { length trees.now ≡ length transit.now }
    ensures positions { positions_of result ≡ length transit.now }
    ensures legs { leg_of result ≡ tree_legs trees.now transit.now }
{
    let mut legs = LegTable::new(transit.len() as u16);
    for (i, record) in trees.iter().enumerate() {
        fill_row(&mut legs, i as u16 + 1, &record.tree, transit);
    }
    legs
}

// Whether a tree holds the street in slot e: the street's head is settled by it.
fn holds_street<M: Map>(map: &M, tree: &BoundedTree, e: u16) -> bool
    ensures { result ≡ holds_street (M.Map.graph map.now) (table_of tree.now) e }
{
    map.slot(e).is_some_and(|(_, head, _)| tree.get(head).is_some_and(|(slot, _)| slot == e))
}

// Adds a position to the end of a row.
fn add_holder(row: &mut Holders, position: u16)
    requires { row.old.count < 16 }
    ensures count { row.new.count ≡ row.old.count + 1 }
    ensures list { list_of row.new ≡ list_of row.old ++ position ∷ [] }
{
    row.positions[row.count] = position;
    row.count += 1;
}

// The rising positions of the trees of the list that hold the street in slot e.
fn holders_of<M: Map>(map: &M, e: u16, trees: &[TreeRecord]) -> Holders
    requires { length trees.now ≤ 16 }
    ensures few { result.count ≤ 16 }
    ensures list { list_of result ≡ tree_positions (M.Map.graph map.now) trees.now (length trees.now) e }
{
    let mut row = Holders {
        positions: [0; 16],
        count: 0,
    };
    for (i, record) in trees.iter().enumerate() {
        if holds_street::<M>(map, &record.tree, e) {
            add_holder(&mut row, i as u16 + 1);
        }
    }
    row
}

// The inverted index: for each slot the positions of the trees that hold it.
fn store_index<M: Map>(map: &M, trees: &[TreeRecord], holders: &mut [Holders; 512])
    requires { length trees.now ≤ 16 }
    ensures rows { (e : ℕ) → 0 < e → e ≤ 512 → (slice_index_or holders.new (e - 1) no_holders).count ≤ 16 }
    ensures index { (e : ℕ) → 0 < e → e ≤ 512 → holders_in holders.new e ≡ tree_positions (M.Map.graph map.now) trees.now (length trees.now) e }
{
    for (at, row) in holders.iter_mut().enumerate() {
        *row = holders_of::<M>(map, at as u16 + 1, trees);
    }
}

/// Stores the trees without any closure, of each how many closed streets it holds, the legs, and the inverted index.
// Not inlined: a life then moves its tables less often.
#[inline(never)]
pub fn store<M: Map, K: Zeroed>(map: &M, tables: &mut Tables)
    requires { PlanFits (M.Map.graph map.now) tables.old }
    ensures kept { tables.new ≡ record tables.old { trees = tables.new.trees; legs = tables.new.legs; holders = tables.new.holders } }
    ensures fits { IndexFits K.Length.kind (M.Map.graph map.now) tables.new }
{
    let transit = tables.transit.as_slice();
    store_trees::<M, K>(map, transit, &tables.closed, &mut tables.trees);
    let trees = &tables.trees[..transit.len()];
    tables.legs = stored_legs(transit, trees);
    store_index::<M>(map, trees, &mut tables.holders);
}
