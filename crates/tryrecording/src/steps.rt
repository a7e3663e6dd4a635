// The steps of a walk, a STEP for each packet.
ghost use Rattle.std.specs.Prelude.{◌≡◌, ◌-◌, ◌≤◌, length};
ghost use Rattle.capture.specs.Captures.{of_lines, OfLines};
ghost use Rattle.tryrecording.specs.Writing.{WroteEach};
ghost use Rattle.tryrecording.specs.Trying.{step_bytes, joined_steps};
ghost use Rattle.tryrecording.specs.Moves.{event_bytes, steps_from, Walkable};

use crate::writing::put_bytes;
use capture::{Cursor, Recording};
use recording::{Event, Stage, advance};

// The line that a packet was on.
const COMMAND: u8 = 0;

const REPLY: u8 = 1;

// The bytes of a STEP.
const STEP: usize = 5;

// How many bytes lie between two positions.
fn between(from: usize, to: usize) -> usize
    ensures { result ≡ to - from }
{
    if from <= to {
        return to - from;
    }
    0
}

// `line start(2) length(2)`, from `at` on; the position behind it.
fn put_step_bytes(out: &mut [u8], at: usize, line: u8, start: usize, long: usize) -> usize
    requires { at ≤ 0x8000 }
    ensures { WroteEach (step_bytes line start long) at out.old result out.new }
{
    // By remainders: a cast to u16 asks that the number fits, and nothing here needs to know that it does.
    let start_low = (start % 256) as u8;
    let start_high = (start / 256 % 256) as u8;
    let long_low = (long % 256) as u8;
    let long_high = (long / 256 % 256) as u8;
    put_bytes(out, at, &[line, start_low, start_high, long_low, long_high])
}

// The STEP of a packet by what it did, from the cursor before it to the one behind it; none where no packet was left.
fn put_event_bytes(out: &mut [u8], at: usize, event: Event, from: Cursor, to: Cursor) -> usize
    requires { at ≤ 0x8000 }
    ensures { WroteEach (event_bytes event from to) at out.old result out.new }
{
    let command = between(from.command, to.command);
    let reply = between(from.reply, to.reply);
    match event {
        Event::Sent(_) => put_step_bytes(out, at, COMMAND, from.command, command),
        Event::Foreign => put_step_bytes(out, at, COMMAND, from.command, command),
        Event::Answered => put_step_bytes(out, at, REPLY, from.reply, reply),
        Event::Unawaited => put_step_bytes(out, at, REPLY, from.reply, reply),
        Event::End => at,
    }
}

// The steps from a stage on, from `from` on in `out`; the position behind them.
pub(crate) fn put_steps_from(taken: Recording, begun: Stage, out: &mut [u8], from: usize) -> usize
    requires { OfLines (λ cs cts rs rts. Walkable cs cts rs rts begun from) taken }
    ensures { WroteEach (joined_steps (of_lines steps_from taken.entry begun)) from out.old result out.new × (result ≤ 0x8005) }
{
    let mut stage = begun;
    let mut at = from;
    loop {
        let moved = advance(taken, stage);
        let event = moved.event;
        let next = moved.stage;
        at = put_event_bytes(out, at, event, stage.at, next.at);
        if next.over {
            return at;
        }
        stage = next;
    }
}

// How many steps there are from a stage on: as if they were written into a buffer without room.
pub(crate) fn count_steps(taken: Recording, begun: Stage) -> usize
    requires { OfLines (λ cs cts rs rts. Walkable cs cts rs rts begun 0) taken }
    ensures { result ≡ length (of_lines steps_from taken.entry begun) }
{
    let mut none = [0; 1];
    put_steps_from(taken, begun, &mut none, 0) / STEP
}
