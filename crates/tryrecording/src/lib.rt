// The line of `trials` that tries recordings: 50 walks through one packet by packet.
// Promised: it shows each packet that a step hands back, how the walk ended and its session then, as docs/TRIALS.md has it.
// Left to others: what the calls answer (recording, capture), how a session is written (state), and the other lines (trypacket, trychain, tryhost, trysheet).
#![tactic(auto)]

mod form;
mod steps;
mod writing;

ghost use Rattle.std.specs.Prelude.{true, ◌≡◌, ◌≤◌, length};
ghost use Rattle.capture.specs.Captures.{of_lines, OfLines};
ghost use Rattle.capture.specs.Steps.{outset, left_at};
ghost use Rattle.recording.specs.Recording.{power_of};
ghost use Rattle.tryrecording.specs.Form.{is_recording};
ghost use Rattle.tryrecording.specs.Writing.{WroteEach};
ghost use Rattle.tryrecording.specs.Trying.{steps_of, end_byte, head_bytes, state_bytes, walk_bytes, replay_bytes, captured_bytes, recording_bytes, tryrecording_replay};
ghost use Rattle.tryrecording.specs.Moves.{IsGood};

use capture::{Capture, Recording};
use fields::{byte, nothing, read_kinds};
use form::{byte_part, command_part, is_recording, kind_part, reply_part, time_count, times_in};
use recording::Ending;
use session::Session;
use state::put_state;
use steps::{count_steps, put_steps_from};
use text::first;
use wire::{Kind, MOST_NODES};
use writing::put_bytes;

// The longest answer: number, end and count, 2048 steps of 5 bytes, a session of 1573.
pub const MOST_BYTES: usize = 11817;

// How a walk ended.
fn end_byte(ending: Ending) -> u8
    ensures { result ≡ end_byte ending }
{
    match ending {
        Ending::Ended => 0,
        Ending::Foreign => 1,
    }
}

// `00 end count(2)`, at the start of `out`; the position behind it.
fn put_head_bytes(out: &mut [u8], end: u8, count: usize) -> usize
    ensures { WroteEach (head_bytes end count) 0 out.old result out.new }
{
    // By remainders: a cast to u16 asks that the number fits, and nothing here needs to know that it does.
    let low = (count % 256) as u8;
    let high = (count / 256 % 256) as u8;
    put_bytes(out, 0, &[wire::DONE, end, low, high])
}

// STATE, from `at` on; the position behind it.
fn put_state_bytes(out: &mut [u8], at: usize, session: Session) -> usize
    requires { at ≤ 0x8005 }
    ensures { WroteEach (state_bytes session) at out.old result out.new }
{
    let state = put_state(nothing(), session);
    let bytes = state.bytes;
    put_bytes(out, at, first(&bytes, state.length))
}

// `00 end count(2) STEP*count STATE`, of a recording that isn't refused.
fn put_walk_bytes(
    out: &mut [u8],
    end: u8,
    session: Session,
    n: u8,
    kinds: [Kind; MOST_NODES],
    taken: Recording,
) -> usize
    requires { OfLines (IsGood n kinds) taken }
    ensures { WroteEach (walk_bytes end (steps_of (power_of n kinds) outset (of_lines left_at taken.entry outset)) session) 0 out.old result out.new }
{
    let begun = recording::begin(n, kinds, taken);
    let stage = begun.stage;
    let count = count_steps(taken, stage);
    let head = put_head_bytes(out, end, count);
    let behind = put_steps_from(taken, stage, out, head);
    put_state_bytes(out, behind, session)
}

// The walk of a recording, or its refusal.
fn put_replay_bytes(out: &mut [u8], n: u8, kinds: [Kind; MOST_NODES], taken: Recording) -> usize
    requires { (length taken.command.times.now ≤ 0x400) × (length taken.reply.times.now ≤ 0x400) }
    ensures { WroteEach (of_lines (replay_bytes n kinds) taken.entry) 0 out.old result out.new }
{
    let replayed = recording::replay(n, kinds, taken);
    let session = replayed.session;
    match replayed.ending {
        Ok(ending) => put_walk_bytes(out, end_byte(ending), session, n, kinds, taken),
        Err(why) => put_bytes(out, 0, &[why.number()]),
    }
}

// What a line of the form is answered, with some kinds.
fn put_captured_bytes(out: &mut [u8], kinds: [Kind; MOST_NODES], args: &[u8]) -> usize
    requires { is_recording args.now ≡ true }
    ensures { WroteEach (captured_bytes kinds args.now) 0 out.old result out.new }
{
    let command = command_part(args);
    let reply = reply_part(args);
    let command_times = times_in(command);
    let reply_times = times_in(reply);
    let t = time_count(command) as usize;
    let u = time_count(reply) as usize;
    let taken = Recording {
        command: Capture {
            bytes: byte_part(command),
            times: &command_times[0..t],
        },
        reply: Capture {
            bytes: byte_part(reply),
            times: &reply_times[0..u],
        },
    };
    put_replay_bytes(out, byte(args, 0), kinds, taken)
}

// With its own.
fn put_recording_bytes(out: &mut [u8], args: &[u8]) -> usize
    requires { is_recording args.now ≡ true }
    ensures { WroteEach (recording_bytes args.now) 0 out.old result out.new }
{
    let kinds = read_kinds(kind_part(args));
    put_captured_bytes(out, kinds, args)
}

// `n KIND*n CAPTURE CAPTURE`: its answer goes to the start of `out`, each byte that has room, and the rest stays; how many bytes it has.
pub fn replay(args: &[u8], out: &mut [u8]) -> usize
    ensures { WroteEach (tryrecording_replay args.now) 0 out.old result out.new }
{
    if is_recording(args) {
        return put_recording_bytes(out, args);
    }
    put_bytes(out, 0, &[0xFF])
}
