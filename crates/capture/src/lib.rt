// A recording's two captures, of the command line and of the reply line: cut into packets by their gaps, and gone through in the order in which the packets start.
// Promised: the packets are those of the captures' times, a step hands back the earliest one that is left, as a part of its capture, and no byte is lost or handed back twice.
// Left to others: what a packet says (packet, status), and what it does to the host's record (recording).
#![tactic(auto)]

ghost use Rattle.std.specs.Prelude.{◌≡◌};
ghost use Rattle.wire.specs.Promise.{Promise};
ghost use Rattle.wire.specs.Part.{Part};
ghost use Rattle.wire.specs.Numbers.{number_by};
ghost use Rattle.capture.specs.Captures.{of_lines, of_times};
ghost use Rattle.capture.specs.Packets.{is_gap, packet_end, cut_of};
ghost use Rattle.capture.specs.Checks.{is_rising, is_even, check_of};
ghost use Rattle.capture.specs.Steps.{due_of, capture_step, capture_by, start_by, packet_at};

use wire::Refusal;

// What was captured on one line: bytes, and the time of each. Any two slices will do; `check` says whether they fit.
#[derive(Clone, Copy)]
pub struct Capture<'b, 't> {
    pub bytes: &'b [u8],
    pub times: &'t [u32],
}

// The captures of both lines.
#[derive(Clone, Copy)]
pub struct Recording<'b, 't> {
    pub command: Capture<'b, 't>,
    pub reply: Capture<'b, 't>,
}

// How far a walk has come in each capture.
#[derive(Clone, Copy)]
pub struct Cursor {
    pub command: usize,
    pub reply: usize,
}

impl Cursor {
    // Before the first byte of either capture.
    pub const START: Cursor = Cursor {
        command: 0,
        reply: 0,
    };
}

#[derive(Clone, Copy, PartialEq, Eq)]
pub enum Line {
    Command,
    Reply,
}

// A step: the line whose packet is handed back, and the cursor behind it.
#[derive(Clone, Copy)]
pub struct Stepped {
    pub line: Line,
    pub behind: Cursor,
}

// Whether a gap of 2 ms or more lies between two neighbouring bytes.
fn is_gap(before: u32, after: u32) -> bool
    ensures { result ≡ is_gap before after }
{
    // In 64 bits, so that no sum wraps.
    (before as u64) + 2 <= after as u64
}

// Where the packet that starts at a byte ends.
fn packet_end(times: &[u32], at: usize) -> usize
    ensures { result ≡ packet_end times.now at }
{
    if times.len() <= at {
        return at;
    }
    for i in at + 1..times.len() {
        if is_gap(times[i - 1], times[i]) {
            return i;
        }
    }
    times.len()
}

// Whether no time is less than the one before.
fn is_rising(times: &[u32]) -> bool
    ensures { result ≡ is_rising times.now }
{
    times.is_sorted()
}

// Whether times and bytes are as many.
fn is_even(one: Capture) -> bool
    ensures { result ≡ is_even one.entry.bytes.now one.entry.times.now }
{
    one.bytes.len() == one.times.len()
}

// The checks before a walk: 15 in either capture, then 16 in either.
pub fn check(taken: Recording) -> Result<(), Refusal>
    ensures { Promise number_by result (of_lines check_of taken.entry) }
{
    if !(is_even(taken.command) & is_even(taken.reply)) {
        return Err(Refusal::Uneven);
    }
    // One after the other: the replies' times are gone through only where the commands' rise.
    if !is_rising(taken.command.times) {
        return Err(Refusal::Backward);
    }
    if !is_rising(taken.reply.times) {
        return Err(Refusal::Backward);
    }
    Ok(())
}

// The line whose packet starts earlier, if one is left; at equal times the command's.
fn due(taken: Recording, at: Cursor) -> Option<Line>
    ensures { result ≡ of_times due_of taken.entry at }
{
    match (
        taken.command.times.get(at.command),
        taken.reply.times.get(at.reply),
    ) {
        (Some(sent), Some(came)) => {
            if sent <= came {
                Some(Line::Command)
            } else {
                Some(Line::Reply)
            }
        }
        (Some(_), None) => Some(Line::Command),
        (None, Some(_)) => Some(Line::Reply),
        (None, None) => None,
    }
}

// The step at a cursor: whose packet is next, and the cursor behind it. Every step moves on, so a walk ends (proofs/Walking).
pub fn step(taken: Recording, at: Cursor) -> Option<Stepped>
    ensures { result ≡ of_times capture_step taken.entry at }
{
    let line = due(taken, at)?;
    let behind = match line {
        Line::Command => Cursor {
            command: packet_end(taken.command.times, at.command),
            reply: at.reply,
        },
        Line::Reply => Cursor {
            command: at.command,
            reply: packet_end(taken.reply.times, at.reply),
        },
    };
    Some(Stepped { line, behind })
}

// The part of a capture from one position to another, as far as it reaches.
fn cut(s: &[u8], from: usize, end: usize) -> &[u8]
    ensures { Part s.entry from (cut_of s.now from end) result }
{
    if s.len() < from {
        return &s[s.len()..];
    }
    if end < from {
        return &s[from..from];
    }
    if s.len() < end {
        return &s[from..];
    }
    &s[from..end]
}

// The packet of the step at a cursor, its own bytes: a part of the command capture or of the reply capture.
pub fn packet_at<'b>(taken: Recording<'b, '_>, at: Cursor) -> &'b [u8]
    ensures { Part (capture_by (of_times due_of taken.entry at) taken.entry.command.bytes taken.entry.reply.bytes) (start_by (of_times due_of taken.entry at) at) (of_lines packet_at taken.entry at) result }
{
    let command = taken.command;
    let reply = taken.reply;
    match due(taken, at) {
        Some(Line::Command) => cut(
            command.bytes,
            at.command,
            packet_end(command.times, at.command),
        ),
        Some(Line::Reply) => cut(reply.bytes, at.reply, packet_end(reply.times, at.reply)),
        None => cut(command.bytes, at.command, at.command),
    }
}
