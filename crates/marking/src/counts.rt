// The number of closed streets that each stored tree keeps, as a street is closed or reopened.
ghost use Rattle.std.specs.Prelude.{◌≡◌, ℕ, true};
ghost use Rattle.walks.specs.Streets.{member};
ghost use Rattle.tables.specs.Tables.{count_in};
ghost use Rattle.marking.specs.Marking.{Within, HasRoom, next_count, Recounted};

use tables::TreeRecord;

// One closed street more in a tree, or one less.
fn count_mark(kept: &mut TreeRecord, closed: bool)
    requires { HasRoom closed kept.old.closed }
    ensures { kept.new ≡ record { tree = kept.old.tree; closed = next_count closed kept.old.closed } }
{
    if closed {
        kept.closed += 1;
    } else {
        kept.closed -= 1;
    }
}

// A street is closed or open again: each tree that holds it counts one more or one less.
pub(crate) fn recount(trees: &mut [TreeRecord; 16], row: &[u16], closed: bool)
    requires within { Within row.now }
    requires room { (i : ℕ) → member row.now i ≡ true → HasRoom closed (count_in trees.old i) }
    ensures { Recounted closed row.now trees.old trees.new }
{
    for &position in row {
        count_mark(&mut trees[usize::from(position) - 1], closed);
    }
}
