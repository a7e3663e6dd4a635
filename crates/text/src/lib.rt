// Text of the bench: its parts, its lines, decimal numbers; bytes that are the same.
// Promised: a newline ends each line, the last may lack it; a decimal number is of its form exactly if it is one below 100, written in decimal.
// Left to others: the bytes of a line (hexadecimal), and what a number counts (script).
#![tactic(auto)]

mod digits;
mod each;
mod lines;
mod same;

pub use digits::read_decimal;
pub use each::Lines;
pub use lines::{NEWLINE, first, first_line, rest};
pub use same::is_same;
