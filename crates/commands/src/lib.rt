// The command text: its lines, the word of its first line, and the call that each later line spells.
//
// Promised, for all bytes: which lines a text has, which kind of length its first line names, and which call
// a line spells, if one; a line is refused exactly if no form spells it (51) or a number of its form is above
// 65,535 (52, with the digits of the first such number as they stand in the line). Nothing is copied: lines
// and tokens are parts of the text.
// Not promised: anything about what a call does.
#![tactic(auto)]

mod command;
mod lines;
mod opening;
mod scan;
mod tokens;

pub use command::{LineFault, grammar_stands, read_command};
pub use lines::{Lines, first_line, lines_stand};
pub use opening::{KindWord, LONGEST_TEXT, TextFault, kind_of, open_text};
pub use tokens::{Numeral, Token, next_token};
