// The text of runs: a line's mark, the time of its bytes, its bytes; which line is at fault; the captures of both lines.
ghost use Rattle.std.specs.Prelude.{◌≡◌, ◌≤◌, length};
ghost use Rattle.replay.specs.Times.{read_digits, read_time};

use capture::{Capture, Line};
use hexadecimal::SPACE;
use std::fmt;
use text::NEWLINE;

// How a run of either line begins.
const COMMAND: u8 = b'>';

const REPLY: u8 = b'<';

// The latest time that a recorder stores.
const LATEST: u64 = 4294967295;

// What a text line says: the line that its bytes were on, their time, and the bytes, still as text.
#[derive(Clone, Copy)]
struct Run<'a> {
    line: Line,
    time: u32,
    bytes: &'a [u8],
}

// The number of the first line that is no run, or else of the first whose time is less than the one before it.
#[derive(Clone, Copy)]
pub(crate) enum Fault {
    Malformed(usize),
    Backward(usize),
}

impl fmt::Display for Fault {
    fn fmt<W: fmt::Write>(&self, f: &mut fmt::Formatter<W>) -> fmt::Result {
        match *self {
            Fault::Malformed(number) => write!(f, "line {number}: not a run of bytes"),
            Fault::Backward(number) => {
                write!(f, "line {number}: its time is less than the one before it")
            }
        }
    }
}

// ---- one line

// The number that some digits make; none where it is later than any time.
fn read_digits(s: &[u8]) -> Option<u32>
    ensures { result ≡ read_digits 0 s.now }
{
    let mut number: u64 = 0;
    for b in s {
        if !b.is_ascii_digit() {
            return None;
        }
        let next = number * 10 + (b - b'0') as u64;
        if LATEST < next {
            return None;
        }
        number = next;
    }
    Some(number as u32)
}

// A time: in decimal, without a leading zero.
// By length and first digit, and not by a match on the slice: in its arms the proof had no word of the first digit.
fn read_time(s: &[u8]) -> Option<u32>
    ensures { result ≡ read_time s.now }
{
    if s.len() < 1 {
        return None;
    }
    if s.len() < 2 {
        return read_digits(s);
    }
    if s[0] == b'0' {
        return None;
    }
    read_digits(s)
}

// The part of a text before its first space; all of it where it has none.
fn first_word(s: &[u8]) -> &[u8] {
    match s.iter().position(|b| *b == SPACE) {
        Some(end) => &s[..end],
        None => s,
    }
}

// The line whose mark a text line begins with, if a space follows it.
fn line_of(words: &[u8]) -> Option<Line> {
    match words {
        [COMMAND, SPACE, ..] => Some(Line::Command),
        [REPLY, SPACE, ..] => Some(Line::Reply),
        _ => None,
    }
}

// Whether some text is one or more bytes.
fn is_bytes(s: &[u8]) -> bool {
    if s.is_empty() {
        return false;
    }
    let mut none = [0; 1];
    match hexadecimal::read_bytes(s, &mut none) {
        Some(_) => true,
        None => false,
    }
}

// The run that a text line is: a mark, a time and bytes, with a space behind each of the first two.
fn read_run<'a>(words: &'a [u8]) -> Option<Run<'a>> {
    let line = line_of(words)?;
    let behind = text::rest(words, 2);
    let stamp = first_word(behind);
    let bytes = text::rest(behind, stamp.len() + 1);
    if !is_bytes(bytes) {
        return None;
    }
    let time = read_time(stamp)?;
    Some(Run { line, time, bytes })
}

// ---- all lines

// Looks at all lines behind the count's, which is the first.
pub(crate) fn survey(runs: &[u8]) -> Result<(), Fault> {
    let mut command = 0;
    let mut reply = 0;
    let mut backward = None;
    let mut number: usize = 1;
    // The last line may lack its newline.
    for words in runs.split_inclusive(|b| *b == NEWLINE) {
        number = number.saturating_add(1);
        let Some(run) = read_run(text::first_line(words)) else {
            return Err(Fault::Malformed(number));
        };
        let last = match run.line {
            Line::Command => &mut command,
            Line::Reply => &mut reply,
        };
        if run.time < *last {
            backward = backward.or(Some(number));
        }
        *last = run.time;
    }
    match backward {
        Some(first) => Err(Fault::Backward(first)),
        None => Ok(()),
    }
}

// Stores the bytes of a run behind those that a capture has, and their time for each. How many it has then.
fn put_run(bytes: &mut [u8], times: &mut [u32], count: usize, run: Run) -> usize
    requires { count ≤ length times.old }
    ensures { (result ≤ length times.new) × (length times.new ≡ length times.old) }
{
    // Two digits each, and a space between them.
    let more = run.bytes.len() / 3 + 1;
    // It never comes to these two: a capture has room for the longest text.
    if times.len() - count < more {
        return count;
    }
    if bytes.len() < count {
        return count;
    }
    hexadecimal::read_bytes(run.bytes, &mut bytes[count..]);
    let end = count + more;
    times[count..end].fill(run.time);
    end
}

// The capture of one line, in the room for its bytes and their times.
pub(crate) fn gather<'a>(
    runs: &[u8],
    line: Line,
    bytes: &'a mut [u8],
    times: &'a mut [u32],
) -> Capture<'a, 'a> {
    let mut count = 0;
    for words in runs.split_inclusive(|b| *b == NEWLINE) {
        if let Some(run) = read_run(text::first_line(words)) {
            if run.line == line {
                count = put_run(bytes, times, count, run);
            }
        }
    }
    Capture {
        bytes: text::first(bytes, count),
        times: &times[..count],
    }
}
