// A recording gone through packet by packet: what each packet does to a host that sent these commands and was told of these replies, and its record at the end.
// Promised: 6, 15, 16 in that sequence, before the first packet; each step and the whole walk, for every recording.
// Left to others: where packets begin and end (capture), which call gives which bytes (calls), and what it all means for the nodes (line).
#![tactic(auto)]

ghost use Rattle.std.specs.Prelude.{◌≡◌, length};
ghost use Rattle.wire.specs.Promise.{Promise};
ghost use Rattle.wire.specs.Numbers.{number_by};
ghost use Rattle.capture.specs.Captures.{of_lines};
ghost use Rattle.capture.specs.Steps.{outset, left_at};
ghost use Rattle.recording.specs.Recording.{quiet_of, count_check, recording_check, power_of, replayed_number, follow_of, replay_of};
ghost use Rattle.recording.specs.Stages.{move_to, take_command, take_reply, take_end, advance_of, begin_at, begun_number, begin_of};

use calls::Call;
use capture::{Cursor, Line, Recording};
use session::{End, Session};
use wire::{Kind, MOST_NODES, Refusal};

// How far a walk has come: its cursor in the captures, whether it has ended, and the host's session there.
#[derive(Clone, Copy)]
pub struct Stage {
    pub at: Cursor,
    pub over: bool,
    pub session: Session,
}

// What a packet did.
#[derive(Clone, Copy)]
pub enum Event {
    // A command, which this call of the host gives.
    Sent(Call),
    // A command that the host couldn't have sent, or a Set Baud Rate. It ends the walk.
    Foreign,
    // A reply that a command waited for.
    Answered,
    // A reply that no command waits for: it has no effect.
    Unawaited,
    // No packet is left.
    End,
}

// What a step did, and the stage behind it.
#[derive(Clone, Copy)]
pub struct Moved {
    pub event: Event,
    pub stage: Stage,
}

// What the checks find, and the first stage of a walk; of a refused recording, one that is over.
// Both, and no Result of a stage: what `begin` promises of the stage of a refused recording stands (begin_of; the edit refused_goes_on).
#[derive(Clone, Copy)]
pub struct Begun {
    pub checked: Result<(), Refusal>,
    pub stage: Stage,
}

// How a whole walk ended.
#[derive(Clone, Copy)]
pub enum Ending {
    // With the recording.
    Ended,
    // With a command that the host couldn't have sent, or with a Set Baud Rate.
    Foreign,
}

// How a whole walk ended, if the recording isn't refused, and the host's session then, with no exchange open; of a refused recording, a fresh one.
// Both, and no Result of a session: what `replay` promises of the session of a refused recording stands (replay_of).
#[derive(Clone, Copy)]
pub struct Replayed {
    pub ending: Result<Ending, Refusal>,
    pub session: Session,
}

// ---- the checks before it

// What the check is, by how power-up ended: 6 for the node count.
fn count_check(end: End) -> Result<(), Refusal>
    ensures { result ≡ count_check end }
{
    end?;
    Ok(())
}

// 6 for the node count, then 15, then 16.
// n and kinds stay two parameters, here and below: power-up takes them so, and a struct of both would only be taken apart again.
pub fn check(n: u8, kinds: [Kind; MOST_NODES], taken: Recording) -> Result<(), Refusal>
    ensures { Promise number_by result (of_lines (recording_check n kinds) taken.entry) }
{
    let up = start::power_up(start::fresh(), n, kinds);
    count_check(up.end)?;
    capture::check(taken)
}

// The session with which a recording of n nodes begins: as power-up makes it of the kinds told, or a fresh one.
fn power(n: u8, kinds: [Kind; MOST_NODES]) -> Session
    ensures { result ≡ power_of n kinds }
{
    let up = start::power_up(start::fresh(), n, kinds);
    up.session
}

// ---- one packet

// The session once a command that waited is silent.
fn quiet(s: Session) -> Session
    ensures { result ≡ quiet_of s }
{
    let silent = reports::silence(s);
    silent.session
}

// What a step did, and the stage behind it. Made here alone, since a literal of a whole session is the costly part of a check.
fn move_to(event: Event, at: Cursor, over: bool, session: Session) -> Moved
    ensures { result ≡ move_to event at over session }
{
    let stage = Stage { at, over, session };
    Moved { event, stage }
}

// A command: the one before it is silent, if it still waits.
fn take_command(s: Session, bytes: &[u8], next: Cursor) -> Moved
    ensures { result ≡ take_command s bytes.now next }
{
    let before = quiet(s);
    let sought = calls::find(before, bytes);
    match sought.source {
        Some(call) => move_to(Event::Sent(call), next, false, sought.session),
        None => move_to(Event::Foreign, next, true, before),
    }
}

// A reply, reported as it came.
fn take_reply(s: Session, bytes: &[u8], next: Cursor) -> Moved
    ensures { result ≡ take_reply s bytes.now next }
{
    let step = reports::report(s, bytes);
    match step.end {
        Ok(_) => move_to(Event::Answered, next, false, step.session),
        Err(_) => move_to(Event::Unawaited, next, false, step.session),
    }
}

// No packet is left.
fn take_end(s: Session, at: Cursor) -> Moved
    ensures { result ≡ take_end s at }
{
    move_to(Event::End, at, true, quiet(s))
}

// The step at a stage: what the next packet does. That packet's own bytes are `capture::packet_at` the cursor of the stage that is handed in; at `End` there is none.
// A walk that is over stays as it is.
pub fn advance(taken: Recording, stage: Stage) -> Moved
    ensures { result ≡ of_lines advance_of taken.entry stage }
{
    let at = stage.at;
    let session = stage.session;
    if stage.over {
        return move_to(Event::End, at, true, session);
    }
    let Some(step) = capture::step(taken, at) else {
        return take_end(session, at);
    };
    let bytes = capture::packet_at(taken, at);
    match step.line {
        Line::Command => take_command(session, bytes, step.behind),
        Line::Reply => take_reply(session, bytes, step.behind),
    }
}

// A stage before the first byte.
fn begin_at(checked: Result<(), Refusal>, over: bool, session: Session) -> Begun
    ensures { result ≡ begin_at checked over session }
{
    let stage = Stage {
        at: Cursor::START,
        over,
        session,
    };
    Begun { checked, stage }
}

// The first stage of a walk, or a refusal with one that is over.
pub fn begin(n: u8, kinds: [Kind; MOST_NODES], taken: Recording) -> Begun
    ensures { Promise begun_number result (of_lines (begin_of n kinds) taken.entry) }
{
    match check(n, kinds, taken) {
        Ok(()) => begin_at(Ok(()), false, power(n, kinds)),
        Err(why) => begin_at(Err(why), true, start::fresh()),
    }
}

// ---- the whole walk

// Goes on from a session to the end.
fn follow(taken: Recording, session: Session) -> Replayed
    requires { (length taken.command.times.now ≡ length taken.command.bytes.now) × (length taken.reply.times.now ≡ length taken.reply.bytes.now) }
    ensures { result ≡ follow_of session (of_lines left_at taken.entry outset) }
{
    let mut stage = Stage {
        at: Cursor::START,
        over: false,
        session,
    };
    loop {
        let moved = advance(taken, stage);
        let next = moved.stage;
        // One arm an event: each has a law of its own that fewer bytes are left (proofs/Stepping).
        match moved.event {
            Event::Sent(_) => stage = next,
            Event::Answered => stage = next,
            Event::Unawaited => stage = next,
            Event::Foreign => {
                return Replayed {
                    ending: Ok(Ending::Foreign),
                    session: next.session,
                };
            }
            Event::End => {
                return Replayed {
                    ending: Ok(Ending::Ended),
                    session: next.session,
                };
            }
        }
    }
}

// The whole walk: how it ended, and the host's record at its end.
pub fn replay(n: u8, kinds: [Kind; MOST_NODES], taken: Recording) -> Replayed
    ensures { Promise replayed_number result (of_lines (replay_of n kinds) taken.entry) }
{
    match check(n, kinds, taken) {
        Ok(()) => follow(taken, power(n, kinds)),
        Err(why) => Replayed {
            ending: Err(why),
            session: start::fresh(),
        },
    }
}
