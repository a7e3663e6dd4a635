// `n KIND*n CAPTURE CAPTURE`; CAPTURE: `b(2) byte*b t(2) time(4)*t`.
ghost use Rattle.std.specs.Prelude.{◌≡◌, ◌≤◌, take};
ghost use Rattle.tryrecording.specs.Form.{byte_count, byte_part, time_part, time_count, times_in, capture_length, most_captured, is_capture, kind_part, command_part, reply_part, are_captures, is_recording};

use fields::{are_kinds, byte, long, word};
use text::{first, rest};

// The most bytes of a capture, and the most times.
pub(crate) const MOST_CAPTURED: usize = 0x400;

// b, of the capture at the start of s.
fn byte_count(s: &[u8]) -> u16
    ensures { result ≡ byte_count s.now }
{
    word(s, 0)
}

// Its bytes.
pub(crate) fn byte_part(s: &[u8]) -> &[u8]
    ensures { result.now ≡ byte_part s.now }
{
    first(rest(s, 2), byte_count(s) as usize)
}

// What stands behind its bytes.
fn time_part(s: &[u8]) -> &[u8]
    ensures { result.now ≡ time_part s.now }
{
    rest(rest(s, 2), byte_count(s) as usize)
}

// t.
pub(crate) fn time_count(s: &[u8]) -> u16
    ensures { result ≡ time_count s.now }
{
    word(time_part(s), 0)
}

// Its times, the first t of the array.
pub(crate) fn times_in(s: &[u8]) -> [u32; MOST_CAPTURED]
    requires { time_count s.now ≤ most_captured }
    ensures { take (time_count s.now) result ≡ times_in s.now }
{
    let from = rest(time_part(s), 2);
    let count = time_count(s) as usize;
    let mut times = [0; MOST_CAPTURED];
    for i in 0..count {
        times[i] = long(from, 4 * i);
    }
    times
}

// How many bytes it has.
fn capture_length(s: &[u8]) -> usize
    ensures { result ≡ capture_length s.now }
{
    4 + byte_count(s) as usize + 4 * time_count(s) as usize
}

// Whether s starts with a capture.
fn is_capture(s: &[u8]) -> bool
    ensures { result ≡ is_capture s.now }
{
    if MOST_CAPTURED < byte_count(s) as usize {
        return false;
    }
    if MOST_CAPTURED < time_count(s) as usize {
        return false;
    }
    capture_length(s) <= s.len()
}

// The kinds behind n.
pub(crate) fn kind_part(args: &[u8]) -> &[u8]
    ensures { result.now ≡ kind_part args.now }
{
    first(rest(args, 1), byte(args, 0) as usize)
}

// The first capture, behind them, with what follows.
pub(crate) fn command_part(args: &[u8]) -> &[u8]
    ensures { result.now ≡ command_part args.now }
{
    rest(rest(args, 1), byte(args, 0) as usize)
}

// The second capture, with what follows.
pub(crate) fn reply_part(args: &[u8]) -> &[u8]
    ensures { result.now ≡ reply_part args.now }
{
    let command = command_part(args);
    rest(command, capture_length(command))
}

// Whether two captures stand behind the kinds, and nothing behind them.
fn are_captures(args: &[u8]) -> bool
    ensures { result ≡ are_captures args.now }
{
    if !is_capture(command_part(args)) {
        return false;
    }
    let reply = reply_part(args);
    if !is_capture(reply) {
        return false;
    }
    reply.len() == capture_length(reply)
}

// Whether a line is of this form.
pub(crate) fn is_recording(args: &[u8]) -> bool
    ensures { result ≡ is_recording args.now }
{
    if are_kinds(kind_part(args)) {
        return are_captures(args);
    }
    false
}
