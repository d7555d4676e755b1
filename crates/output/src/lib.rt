// The output text: a line for each answer and for each refusal, in memory that is taken once.
//
// Promised: an `Output` is made with all the memory that the answers to a text of 4,096 bytes can need, or not at
// all; after that no call fails. Each put appends the written form of its line, as long as room for the longest
// line is left; a text of at most 4,096 bytes never comes to the end of the room.
// Not promised: when the text is printed, or where.
#![tactic(auto)]

mod buffer;

pub use buffer::Output;
