// One node, a gate or a drive: what it holds, its power-up state, and what a packet does to it.
// Promised: the table of effects, setting by setting; a wrong sum and another command change nothing; no packet changes a bench value but a drive's position.
// Left to others: whether the node hears it and is meant (survey), and the bytes of the reply (reply).
#![tactic(auto)]

mod choice;
mod drive;
mod gate;
mod state;

pub use choice::pick;
pub use drive::DriveSettings;
pub use gate::GateSettings;
pub use state::{Bench, Captured, Node, Settings, Shown};
