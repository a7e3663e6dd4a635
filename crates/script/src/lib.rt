// The bench program's text: what it writes for what it reads, as a function on slices.
// Promised: the whole output for every input, of any length; 5 where it has no room, and then nothing is written.
// Left to others: standard input and output (bench), the chain's answers (table, chain).
#![tactic(auto)]

mod answers;
mod rehearsal;

pub use rehearsal::rehearse;
