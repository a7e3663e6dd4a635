// What a packet does to a chain, node by node and by values: who hears it, who acts, who replies, and what is answered.
// Promised: a look at each node in order and the plan that follows are what the paper says of the whole chain (specs: One, Chain, Delivery).
// Left to others: what a node makes of a packet and sends back (node, reply), and who holds the nodes: a lent table (chain), or another way to find those that a packet means.
#![tactic(auto)]

mod decision;
mod one;
mod plan;
mod sets;

pub use decision::{Decided, Delivery, decide};
pub use plan::{Incoming, Plan, Seen, Survey, glance, plan_for, plan_of, receive, speaker};
pub use sets::{Replier, first, without_first};
