// Movement sheets: lines as `HEX 01 13 04`, imported into packets, and packets exported as such lines.
// Promised: each refusal by its number, 14 with the line's; an exported packet imports as itself, and what imports is of the form, and conversely.
// Left to others: what a packet is, whether it reads and where it ends (packet), and where the text comes from (the programs import, export, play).
#![tactic(auto)]

mod exporting;
mod importing;
mod line;

pub use exporting::export;
pub use importing::{ImportError, MOST, import, number};
