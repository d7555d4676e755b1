// Rows of a leg table, filled from a tree.
ghost use Rattle.std.specs.Prelude.{◌≡◌, slice_index};
ghost use Rattle.walks.specs.Runs.{length_of};
ghost use Rattle.legs.specs.Tables.{positions_of, leg_of};
ghost use Rattle.trees.specs.Trees.{table_of};
ghost use Rattle.tables.specs.Rows.{with_row_to};

use legs::LegTable;
use trees::BoundedTree;

/// The length of junction v in a tree, absent if it is not settled there.
pub fn length_in(tree: &BoundedTree, v: u16) -> Option<u64>
    ensures { result ≡ length_of (table_of tree.now v) }
{
    tree.get(v).map(|(_, length)| length)
}

// The length in a tree of the junction after j others of the list, absent past its end.
fn length_after(tree: &BoundedTree, transit: &[u16], j: usize) -> Option<u64>
    ensures { result ≡ length_of (table_of tree.now (slice_index transit.now j)) }
{
    let v = transit.get(j)?;
    length_in(tree, *v)
}

/// The legs from a list position to each other one are the lengths in the tree of the transit nodes there. A position that the table
/// lacks changes nothing, and to positions past the end of the list no leg is left.
pub fn fill_row(legs: &mut LegTable, position: u16, tree: &BoundedTree, transit: &[u16])
    ensures positions { positions_of legs.new ≡ positions_of legs.old }
    ensures legs { leg_of legs.new ≡ with_row_to (positions_of legs.old) transit.now position (table_of tree.now) (leg_of legs.old) }
{
    // Over all sixteen positions and not over the list, so that none past its end keeps a leg.
    for j in 0..16 {
        legs.set_between(position, j as u16 + 1, length_after(tree, transit, j));
    }
}
