// The walk: a line for each packet, when it came, on which line, its bytes, what it says, and what it did; and how the walk ended.
ghost use Rattle.std.specs.Prelude.{◌≡◌, IfOk, get_or};
ghost use Rattle.capture.specs.Captures.{of_lines};
ghost use Rattle.recording.specs.Recording.{replay_of};

use crate::record::put_changes;
use crate::words::{kind_of_call, kind_of_foreign, put_judged, put_spoken};
use capture::Recording;
use recording::{Event, Moved, Stage};
use session::Session;
use std::io;
use wire::{Kind, MOST_NODES};

// The time of a byte.
fn time_at(times: &[u32], at: usize) -> u32
    ensures { result ≡ get_or times.now at 0 }
{
    times.get(at).copied().unwrap_or(0)
}

// Whether a command waits for its reply: whether silence closes an exchange.
fn is_waiting(s: Session) -> bool {
    let step = reports::silence(s);
    let end = step.end;
    match end {
        Ok(None) => true,
        Ok(Some(_)) => false,
        Err(_) => false,
    }
}

// What silence did to the command that waited.
fn put_silence(rt: &impl Print, s: Session) -> io::Result<()> {
    let step = reports::silence(s);
    print!(rt; "silence before it: ")?;
    put_changes(rt, s, step.session)
}

// A space and two capitals for each byte.
fn put_bytes(rt: &impl Print, bytes: &[u8]) -> io::Result<()> {
    for b in bytes {
        print!(rt; " {b:02X}")?;
    }
    Ok(())
}

// A command's line: the kind of node by which it is read, the session before it, and what it did.
fn put_command_line(
    rt: &impl Print,
    time: u32,
    kind: Kind,
    bytes: &[u8],
    before: Session,
    did: &str,
) -> io::Result<()> {
    print!(rt; "{time} >")?;
    put_bytes(rt, bytes)?;
    print!(rt; " | ")?;
    put_spoken(rt, kind, bytes)?;
    print!(rt; " | ")?;
    if is_waiting(before) {
        put_silence(rt, before)?;
        print!(rt; "; ")?;
    }
    println!(rt; "{did}")
}

// A command that the host sent, by the session behind it.
fn put_sent(
    rt: &impl Print,
    time: u32,
    kind: Kind,
    bytes: &[u8],
    before: Session,
    after: Session,
) -> io::Result<()> {
    if session::is_closed(after) {
        put_command_line(
            rt,
            time,
            kind,
            bytes,
            before,
            "sent, the session closes, all in doubt",
        )
    } else {
        put_command_line(rt, time, kind, bytes, before, "sent")
    }
}

// A command that the host couldn't have sent.
fn put_foreign(rt: &impl Print, time: u32, bytes: &[u8], before: Session) -> io::Result<()> {
    let kind = kind_of_foreign(before, bytes);
    put_command_line(
        rt,
        time,
        kind,
        bytes,
        before,
        "not the host's, the walk ends",
    )
}

// A reply's line, up to what it did.
fn put_reply(rt: &impl Print, time: u32, bytes: &[u8]) -> io::Result<()> {
    print!(rt; "{time} <")?;
    put_bytes(rt, bytes)?;
    print!(rt; " | ")?;
    put_judged(rt, bytes)?;
    print!(rt; " | ")
}

// A reply that a command waited for: the sessions before and behind it.
fn put_answered(
    rt: &impl Print,
    time: u32,
    bytes: &[u8],
    before: Session,
    after: Session,
) -> io::Result<()> {
    put_reply(rt, time, bytes)?;
    put_changes(rt, before, after)?;
    println!(rt; "")
}

fn put_unawaited(rt: &impl Print, time: u32, bytes: &[u8]) -> io::Result<()> {
    put_reply(rt, time, bytes)?;
    println!(rt; "nobody waits for it")
}

fn put_end(rt: &impl Print, before: Session) -> io::Result<()> {
    print!(rt; "end of the recording")?;
    if is_waiting(before) {
        print!(rt; " | ")?;
        put_silence(rt, before)?;
    }
    println!(rt; "")
}

// The line of a step: the stage before it, and what it did.
fn put_step(rt: &impl Print, taken: Recording, before: Stage, moved: Moved) -> io::Result<()> {
    let at = before.at;
    let old = before.session;
    let stage = moved.stage;
    let new = stage.session;
    let bytes = capture::packet_at(taken, at);
    let sent_at = time_at(taken.command.times, at.command);
    let came_at = time_at(taken.reply.times, at.reply);
    let event = moved.event;
    match event {
        Event::Sent(call) => put_sent(rt, sent_at, kind_of_call(call), bytes, old, new),
        Event::Foreign => put_foreign(rt, sent_at, bytes, old),
        Event::Answered => put_answered(rt, came_at, bytes, old, new),
        Event::Unawaited => put_unawaited(rt, came_at, bytes),
        Event::End => put_end(rt, old),
    }
}

// Walks through a recording of n nodes of these kinds, and writes a line for each step. The session at its end is the one that `recording::replay` gives.
pub(crate) fn replay(
    rt: &impl Print,
    n: u8,
    kinds: [Kind; MOST_NODES],
    taken: Recording,
) -> io::Result<Session>
    ensures { IfOk result (λ last. last ≡ (of_lines (replay_of n kinds) taken.entry).session) }
{
    let begun = recording::begin(n, kinds, taken);
    let mut stage = begun.stage;
    loop {
        let moved = recording::advance(taken, stage);
        put_step(rt, taken, stage, moved)?;
        let next = moved.stage;
        if next.over {
            return Ok(next.session);
        }
        stage = next;
    }
}
