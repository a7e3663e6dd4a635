// The records of the lines of `trials`: NODE, what a node of the chain holds, and ENTRY, what the host's record has of a node.
// Here alone stands how long a record is and what has which position in it.
// Promised: which bytes are records, what each of them reads as, and the bytes that show it.
// Left to others: what a line does with its records (trychain, state).
#![tactic(auto)]

mod entries;
mod nodes;
mod settings;

pub use entries::{are_entries, put_entries, read_entries};
pub use nodes::{are_nodes, nodes_length, put_nodes, read_nodes};
