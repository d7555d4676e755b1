// Tests of trees and of whole lives, beside a simple search of another make, which relaxes streets until nothing changes.
//
// Nothing is promised here beyond that the tests are safe and end; they run over maps that they draw themselves.
#![tactic(auto)]

mod drawing;
#[cfg(test)]
mod life_tests;
#[cfg(test)]
mod mixed_tests;
#[cfg(test)]
mod relaxing;
#[cfg(test)]
mod tree_tests;
