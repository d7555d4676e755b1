// The number of closed streets that a tree holds.
ghost use Rattle.std.specs.Prelude.{◌≡◌, ◌≤◌, count_by};
ghost use Rattle.std.specs.List.{range_with_len};
ghost use Rattle.trees.specs.Marks.{closed_in};
ghost use Rattle.trees.specs.Trees.{table_of};
ghost use Rattle.walks.specs.Trees.{slot_in};

use trees::{BoundedTree, is_closed};

// Whether a junction is settled by a closed street.
fn is_held(tree: &BoundedTree, closed: &[bool; 512], v: u16) -> bool
    ensures { result ≡ slot_in (closed_in closed.now) (table_of tree.now v) }
{
    tree.get(v).is_some_and(|(slot, _)| is_closed(closed, slot))
}

// How many closed streets the tree of a map with n junctions holds.
pub(crate) fn closed_held(tree: &BoundedTree, closed: &[bool; 512], n: u16) -> u16
    requires { n ≤ 128 }
    ensures { result ≡ count_by (λ v. slot_in (closed_in closed.now) (table_of tree.now v)) (range_with_len 1 n) }
{
    // Half open, which needs no answer; over `1..=n` the same chain wants a lemma on what such a range yields.
    (1..n + 1).filter(|v| is_held(tree, closed, *v)).count() as u16
}
