// The order of an oracle's calls, over any map and any kind of length: a plan is built before it is asked, and an index is planned
// anew before a junction is named in it.
//
// The two files are those of tests/accepted. Without either step the text is refused, for the method that its plan or index lacks:
// tests/faulty has the two texts. Nothing is promised here beyond that the calls are accepted, safe and end.
#![tactic(auto)]

mod build_first;
mod replan_first;

pub use build_first::one_answer;
pub use replan_first::one_more;
