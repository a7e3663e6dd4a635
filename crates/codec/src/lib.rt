// Commands as packets: read from a packet's parts by the kind of node, and built.
// Promised: a built packet reads back as the same command for each kind that has it; an accepted one is the one built from its command, whose values are of their ranges.
// Left to others: header and sum (packet), which commands there are and their ranges (command), and what a command does (node).
#![tactic(auto)]

mod building;
mod own;
mod reading;

pub use building::{build, put_packet_to};
pub use own::drive_own;
pub use reading::{Readings, read};
