// Walks over a map, the bounded run, and legs between transit nodes: definitions, and theorems about them.
//
// Each function here states theorems in its contract, answers 0 and does nothing else. The theorems hold for every
// lawful kind of length and every map whose street lengths are codes, as those of every lawful map are.
// No run or search is done here: the crates that do them say what they leave in these definitions.
#![tactic(auto)]

ghost use Rattle.std.specs.Prelude.{◌≡◌};
ghost use Rattle.walks.specs.Claims.{LawfulIsCoded, RunSound, RunComplete, RunIsTree, ReversedSound, ReversedComplete, RunFollowsRule, RuleHasOneRun};
ghost use Rattle.walks.specs.Claims.{HeldAtHead, UnaffectedKeeps, AffectedByTest, OneAnswer, RunAnswers};
ghost use Rattle.walks.specs.Claims.{WalksSplit, LegsCompose, LegsAnswer, AnswerByLegs, ReachedByLegs};
ghost use Rattle.walks.specs.Examples.{Solved};

// The bounded run gives best walks past no transit node but its root, along the streets and against them, and is the run of the rule.
pub fn runs_stand() -> u8
    ensures coded { LawfulIsCoded }
    ensures sound { RunSound }
    ensures complete { RunComplete }
    ensures tree { RunIsTree }
    ensures reversed_sound { ReversedSound }
    ensures reversed_complete { ReversedComplete }
    ensures follows { RunFollowsRule }
    ensures only { RuleHasOneRun }
    ensures zero { result ≡ 0 }
{
    0
}

// A tree that no closed street affects keeps its lengths.
pub fn trees_stand() -> u8
    ensures held { HeldAtHead }
    ensures keeps { UnaffectedKeeps }
    ensures test { AffectedByTest }
    ensures zero { result ≡ 0 }
{
    0
}

// At most one answer is right, and there is one.
pub fn answers_stand() -> u8
    ensures one { OneAnswer }
    ensures run { RunAnswers }
    ensures zero { result ≡ 0 }
{
    0
}

// Best ways over the legs between transit nodes are best open walks.
pub fn legs_stand() -> u8
    ensures split { WalksSplit }
    ensures compose { LegsCompose }
    ensures answer { LegsAnswer }
    ensures back { AnswerByLegs }
    ensures reached { ReachedByLegs }
    ensures zero { result ≡ 0 }
{
    0
}

// The definitions give the solved examples.
pub fn examples_stand() -> u8
    ensures solved { Solved }
    ensures zero { result ≡ 0 }
{
    0
}
