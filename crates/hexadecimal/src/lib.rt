// Lines of bytes: two-digit capitals, single spaces; read and written.
// Promised: what is written is read back, and only what is so written is of its form.
// Left to others: where a line ends (text), what the bytes mean, and how many of them a caller keeps.
#![tactic(auto)]

mod digits;
mod pairs;
mod writing;

pub use pairs::{SPACE, read_bytes};
pub use writing::write_line;
