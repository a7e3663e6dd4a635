// A line of `trials`: its fields, and the bytes of its answer.
// Promised: one to four bytes at a place of a line; what it lends; each byte put into an answer, in its place, and nothing past its room.
// Left to others: what the fields mean (layout, state, and the crates whose names start with try), and how bytes are written as text (hexadecimal).
#![tactic(auto)]

mod answer;
mod kind;
mod read;

pub use answer::{Answer, MOST_BYTES, malformed, nothing, numbered, valued};
pub use kind::{are_kinds, is_kind, read_kind, read_kinds};
pub use read::{
    MOST_ROOM, MOST_TRIPLE_ROOM, MOST_WORD_ROOM, byte, filled, is_lending, long, room, triple, word,
};
