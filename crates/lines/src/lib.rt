// Lines of text about a shelf: the lines of calls and of measures that are read, and the lines of answers that are written. A line
// that is read is any bytes, those before its newline; words and numbers are in ASCII.
//
// Every function is proved, and the crate assumes nothing. It knows no shelf: what a line asks for is an enum of numbers.
#![tactic(auto)]

pub mod answers;
mod fields;
pub mod held;
pub mod measures;
pub mod requests;
