// Status packets: status byte; the items asked for; sum. How many bytes each item has. And how the host takes what it received for a command.
// Promised: a status packet reads back as its parts, an accepted one is the one of its parts, a reply with one byte changed is never good.
// Left to others: which items a mask asks for (mask), writing them (reply), and what an answer makes of the record (entry).
#![tactic(auto)]

ghost use Rattle.std.specs.Prelude.{◌≡◌};
ghost use Rattle.wire.specs.Numbers.{number_by};
ghost use Rattle.wire.specs.Promise.{Promise};
ghost use Rattle.wire.specs.Part.{Part};
ghost use Rattle.status.specs.Status.{counts, status_read, items_from, items_part, judge_of};

use wire::{Kind, Refusal};

// How many bytes each item of a gate has, from bit 0 of the mask on.
const GATE_COUNTS: [u8; 8] = [2, 1, 1, 1, 4, 2, 2, 4];

// And each of a drive, which has none for bit 7.
const DRIVE_COUNTS: [u8; 8] = [4, 1, 2, 1, 4, 2, 2, 0];

// All that a kind has. A macro and no function, since a constant's value can call none.
macro_rules! total {
    ($counts:ident) => {
        ($counts[0]
            + $counts[1]
            + $counts[2]
            + $counts[3]
            + $counts[4]
            + $counts[5]
            + $counts[6]
            + $counts[7]) as usize
    };
}

const GATE_TOTAL: usize = total!(GATE_COUNTS);

const DRIVE_TOTAL: usize = total!(DRIVE_COUNTS);

// The total of all item counts: the larger of the two.
pub const T: usize = if GATE_TOTAL < DRIVE_TOTAL {
    DRIVE_TOTAL
} else {
    GATE_TOTAL
};

// The longest good reply: status byte, all items, sum.
pub const MOST_REPLY: usize = T + 2;

// The byte counts of a kind's items, from bit 0 of the mask on. A byte each: all eight are handed over as one word.
#[tactic(auto, unfolding(crate::specs::Status::counts))]
pub fn counts(kind: Kind) -> [u8; 8]
    ensures { result ≡ counts kind }
{
    match kind {
        Kind::Gate => GATE_COUNTS,
        Kind::Drive => DRIVE_COUNTS,
    }
}

// One whole status packet with so many item bytes.
#[tactic(auto, using(wire::specs::Promise::promised), unfolding(crate::specs::Status::status_read))]
pub fn read(s: &[u8], items: usize) -> Result<u8, Refusal>
    ensures { Promise number_by result (status_read s.now items) }
{
    if s.len() < 2 {
        return Err(Refusal::Short);
    }
    let found = s.len() - 2;
    if found < items {
        return Err(Refusal::Short);
    }
    if items < found {
        return Err(Refusal::Long);
    }
    if !buffer::ends_in_sum(s) {
        return Err(Refusal::Sum);
    }
    Ok(s[0])
}

// The item bytes of a status packet: all between its status byte and its sum.
pub fn items_part(s: &[u8]) -> &[u8]
    ensures { Part s.entry items_from (items_part s.now) result }
{
    if s.len() < 2 {
        return &s[s.len()..];
    }
    let end = s.len() - 1;
    &s[1..end]
}

// How the host takes what it received for a command.
#[derive(Clone, Copy)]
pub enum Answer {
    // Good and clear: confirmed.
    Clear,
    // Good, and bit 1 says that the command had a wrong sum.
    Marked,
    // All else.
    Silent,
}

// A reply is good if it has 2 to T + 2 bytes and its sum is right; clear if bit 1 of its status byte is 0.
#[tactic(auto, unfolding(crate::specs::Status::judge_of))]
pub fn judge(s: &[u8]) -> Answer
    ensures { result ≡ judge_of s.now }
{
    if s.len() < 2 || MOST_REPLY < s.len() || !buffer::ends_in_sum(s) {
        return Answer::Silent;
    }
    if s[0] / 2 % 2 == 0 {
        Answer::Clear
    } else {
        Answer::Marked
    }
}
