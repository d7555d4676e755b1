// Tests of the session: what is printed for map files and texts, case by case.
//
// Nothing is promised here beyond that the tests are safe and end.
#![tactic(auto)]

#[cfg(test)]
mod tests;
