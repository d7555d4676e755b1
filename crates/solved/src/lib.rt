// The solved examples: one table, under one theorem for the definitions.
//
// Each row of specs/Table is a question with its answer, on a map that is read from the bytes of its file. specs/Rows says what each form of
// row means, in the relations that the contracts of the code cite. The whole table is tested by computation, once, and one lemma turns
// the test of a row into what the row says.
#![tactic(auto)]

ghost use Rattle.std.specs.Prelude.{◌≡◌};
ghost use Rattle.solved.specs.Table.{Solved};

use lengths::kinds_are_lawful;

/// The solved examples stand.
pub fn solved_examples_stand() -> u8
    ensures solved { Solved }
    ensures zero { result ≡ 0 }
{
    kinds_are_lawful();
    0
}
