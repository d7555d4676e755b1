// What an ask works out: the streets that trees hold, the inverted index, the legs handed to the search, and the redone count.
//
// Each function here states theorems in its contract, answers 0 and does nothing else. They hold for every lawful
// kind of length and every map whose street lengths are codes, as those of every lawful map are.
// Nothing is built, asked or searched here: the crates that do it say what they leave in these definitions.
#![tactic(auto)]

ghost use Rattle.std.specs.Prelude.{◌≡◌};
ghost use Rattle.asks.specs.Claims.{TreesInWords, StoredInWords, NumberCounts, AffectedByNumber, NumberFollowsMarks, IndexInverts, NumbersFollowIndex};
ghost use Rattle.asks.specs.Claims.{HandedAreLegs, HandedAnswer, HandedReach, PartialLegsAnswer, PartialHandedAnswer, PartialHandedReach, LastRound, RoundsGrow};
ghost use Rattle.asks.specs.Claims.{RedoneOnce, RedoneByLengths, RedoneBySearch};
ghost use Rattle.asks.specs.Examples.{Solved};

// Trees and stored legs are best walks past no other transit node.
pub fn trees_in_words_stand() -> u8
    ensures trees { TreesInWords }
    ensures legs { StoredInWords }
    ensures zero { result ≡ 0 }
{
    0
}

// A tree's number is that of the closed streets it holds, is zero exactly if it holds none, and follows each closing and reopening.
pub fn counts_stand() -> u8
    ensures counts { NumberCounts }
    ensures affected { AffectedByNumber }
    ensures follows { NumberFollowsMarks }
    ensures zero { result ≡ 0 }
{
    0
}

// The inverted index has exactly the positions of the trees that hold a street, rising.
pub fn index_stands() -> u8
    ensures inverts { IndexInverts }
    ensures follows { NumbersFollowIndex }
    ensures zero { result ≡ 0 }
{
    0
}

// The best way over the legs handed on is the best open way, to the goal and to each transit node.
pub fn legs_handed_stand() -> u8
    ensures legs { HandedAreLegs }
    ensures answer { HandedAnswer }
    ensures reach { HandedReach }
    ensures zero { result ≡ 0 }
{
    0
}

// It is so too where rows of legs that are not reached are left absent; rounds that fill in what is reached come to that.
pub fn partial_legs_stand() -> u8
    ensures partial { PartialLegsAnswer }
    ensures answer { PartialHandedAnswer }
    ensures reach { PartialHandedReach }
    ensures last { LastRound }
    ensures grow { RoundsGrow }
    ensures zero { result ≡ 0 }
{
    0
}

// One redone count is right, and a right search over the legs handed on tells it.
pub fn redone_stands() -> u8
    ensures once { RedoneOnce }
    ensures lengths { RedoneByLengths }
    ensures search { RedoneBySearch }
    ensures zero { result ≡ 0 }
{
    0
}

// The definitions give the solved examples.
pub fn examples_stand() -> u8
    ensures solved { Solved }
    ensures zero { result ≡ 0 }
{
    0
}
