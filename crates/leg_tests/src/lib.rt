// Tests of the best ways over legs, beside a solver of another make: relaxation over a list of legs.
//
// Nothing is promised here beyond what the tests are seen to do, and no other crate builds on this one.
#![tactic(auto)]

#[cfg(test)]
mod tests;
