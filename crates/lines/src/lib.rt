// Lines of bytes and the numbers on them: a cursor over a lent line reads its numbers one by one, in one pass, into an array that the caller
// lends. Serves whoever reads a text: its words are cut at one byte, and how many digits a number may have is a parameter.
// Stands on `lists` alone. Renders of 01, "The filing program", what a line of numbers is.
#![tactic(auto)]

mod cursor;
mod numerals;
mod reading;

pub use numerals::piece_end;
pub use reading::read_line;
