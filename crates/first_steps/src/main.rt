// The program `first_steps`: the order of an oracle's calls, on the least sheet.
//
// A plan is built before it is asked, and an index is planned anew before a junction is named in it. Without either step the program
// is refused before it runs, for the method that its plan or index lacks: tests/faulty has the two texts.
#![tactic(auto)]

use lengths::Paces;
use oracle::Plan;
use sheet::{Sheet, least_sheet};
use std::io;

fn main(rt: HostRuntime) -> io::Result<()> {
    let plan = Plan::<Sheet<'_>, Paces>::new(least_sheet());
    let mut oracle = plan.build();
    let answered = oracle.ask(1, 1).is_ok();
    let mut oracle = oracle.replan();
    let named = oracle.name(1).is_ok();
    println!(rt; "answered {answered}, named {named}")
}
