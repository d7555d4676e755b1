// The closed-street oracle: a map with its plain tables, as a plan while transit nodes are named, and as an index once it is built.
//
// Promised, for every lawful map and every lawful kind of length: build stores the defined trees, counts, legs and inverted index; close
// and reopen change one mark and the counts of exactly the trees that hold the street; ask answers the best open length, or no way, and
// the defined redone count, and changes only the tally; a refused call changes nothing. What a call asks, that the tables fit map and
// kind, every earlier call ensures from creation on. Nothing is allocated.
// Plan and index are two types with calls of their own, and not one with a parameter for its state: a call that the state lacks is no
// method.
// That fit is carried by contracts and by no invariant of the two types, so that each call shows what it asks and what it leaves.
// Not promised here: what follows for whole lives of calls. The crate `lives` says it.
#![tactic(auto)]

mod asking;
pub mod index;
pub mod plan;

pub use index::Index;
pub use plan::Plan;
