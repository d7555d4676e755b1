// Tests of the two map formats on files that are written out, through the public calls alone.
//
// Each test is proved like any function, so that it is safe and ends, and is then run.
#![tactic(auto)]

#[cfg(test)]
mod blocks;
#[cfg(test)]
mod reports;
#[cfg(test)]
mod sheets;
#[cfg(test)]
mod tables;
#[cfg(test)]
mod views;
