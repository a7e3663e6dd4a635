// What every call speaks of: the paper's numbers, individual and group addresses, kinds of node.
// Promised: each refusal has its number; a byte names one address and comes back from it.
// Left to others: sums and lent buffers (buffer), and which refusal comes first.
#![tactic(auto)]

mod address;
mod kind;
mod refusal;

pub use address::{Address, Group, Individual};
pub use kind::Kind;
pub use refusal::{COLLISION, DONE, Refusal, number};

// The longest chain.
pub const MOST_NODES: usize = 31;
