// The lines of `trials` by their first byte, and all lines of an input: each topic of lines is a crate of its own, and has a row here.
// Promised: what a line is answered, but for that of a recording, which tryrecording promises; the session after it; and the session after all lines of an input.
// Left to others: the lines of each topic (trypacket, trychain, tryhost, trysheet, tryrecording), and what comes in (trials, carousels, divisors).
// What is written to standard output no contract can say: it is run, and compared. Where a write fails, its error comes in place of the session.
#![tactic(auto)]

ghost use Rattle.std.specs.Prelude.{◌≡◌, ◌≤◌, IfOk, length, take};
ghost use Rattle.start.specs.Start.{fresh_of};
ghost use Rattle.text.specs.Lines.{lines_of};
ghost use Rattle.trylines.specs.Trying.{input_room, trylines_answer, trylines_attempt, trylines_read_line, try_bytes, try_line, try_lines, try_all};

use fields::{Answer, byte, malformed};
use session::Session;
use std::io;
use tryhost::Tried;

// The longest input.
const MOST: usize = 65536;

// Room for the longest input, and one byte more, which tells that it is longer.
pub fn input_room() -> [u8; MOST + 1]
    ensures { result ≡ input_room }
{
    [0; MOST + 1]
}

// Room for the bytes of the longest line: each has two digits and a space or the line's end behind it.
const BYTES: usize = 21846;

// Room for the line of the longest answer.
const LINE: usize = 3 * fields::MOST_BYTES;

// A function, so that a contract says how long it is; so are the rooms below.
fn line_room() -> [u8; LINE]
    ensures { 6633 ≡ length result }
{
    reading::room()
}

// Room for the answer to a recording, which is longer than all others, and for its line.
const RECORDING: usize = tryrecording::MOST_BYTES;

fn recording_room() -> [u8; RECORDING]
    ensures { 11817 ≡ length result }
{
    reading::room()
}

const RECORDING_LINE: usize = 3 * RECORDING;

fn recording_line_room() -> [u8; RECORDING_LINE]
    ensures { 35451 ≡ length result }
{
    reading::room()
}

// Writes bytes as a line, which `line` has room for.
fn show_bytes(rt: &impl Print, bytes: &[u8], line: &mut [u8]) -> io::Result<()> {
    match hexadecimal::write_line(bytes, line) {
        Ok(n) => rt.write_all(text::first(line, n)),
        Err(_) => Ok(()),
    }
}

// Writes an answer as a line.
fn show(rt: &impl Print, a: Answer) -> io::Result<()> {
    let bytes = a.bytes;
    let mut line = line_room();
    show_bytes(rt, text::first(&bytes, a.length), &mut line)
}

// Tries a recording, and writes its answer.
fn try_recording(rt: &impl Print, args: &[u8]) -> io::Result<()> {
    let mut bytes = recording_room();
    let mut line = recording_line_room();
    let n = tryrecording::replay(args, &mut bytes);
    show_bytes(rt, text::first(&bytes, n), &mut line)
}

// What a line is answered that leaves the session as it is.
fn answer(kind: u8, args: &[u8]) -> Answer
    ensures { result ≡ trylines_answer kind args.now }
{
    match kind {
        0x10 => trypacket::build(args),
        0x11 => trypacket::read(args),
        0x12 => trypacket::read_status(args),
        0x20 => trychain::deliver(args),
        0x40 => trysheet::import(args),
        0x41 => trysheet::export(args),
        0x42 => trysheet::import_copied(args),
        0x43 => trysheet::export_copied(args),
        _ => malformed(),
    }
}

// What a line makes, by its first byte and those behind it: its answer, and the session after it. The host's lines are those from 30 on.
pub fn attempt(s: Session, kind: u8, args: &[u8]) -> Tried
    ensures { result ≡ trylines_attempt s kind args.now }
{
    if kind / 16 == 3 {
        return tryhost::attempt(s, kind, args);
    }
    tryhost::with_session(answer(kind, args), s)
}

// Reads a line's bytes; how many. A line that is not of the form has none: it is answered as an empty line is.
fn read_line(line: &[u8], bytes: &mut [u8]) -> usize
    ensures { take result bytes.new ≡ take (length bytes.old) (trylines_read_line line.now) }
{
    match hexadecimal::read_bytes(line, bytes) {
        Some(n) => n,
        None => 0,
    }
}

// Writes what a line is answered; the session after it.
fn show_tried(rt: &impl Print, tried: Tried) -> io::Result<Session>
    ensures { IfOk result (λ after. after ≡ tried.session) }
{
    let answer = tried.answer;
    show(rt, answer)?;
    Ok(tried.session)
}

// Tries a line by its first byte and those behind it; the session after it.
fn try_bytes(rt: &impl Print, s: Session, kind: u8, args: &[u8]) -> io::Result<Session>
    ensures { IfOk result (λ after. after ≡ try_bytes s kind args.now) }
{
    if kind == 0x50 {
        try_recording(rt, args)?;
        return Ok(s);
    }
    show_tried(rt, attempt(s, kind, args))
}

// Tries a line; the session after it.
fn try_line(rt: &impl Print, s: Session, line: &[u8]) -> io::Result<Session>
    ensures { IfOk result (λ after. after ≡ try_line s line.now) }
{
    let mut room = reading::room::<BYTES>();
    let n = read_line(line, &mut room);
    let bytes = text::first(&room, n);
    try_bytes(rt, s, byte(bytes, 0), text::rest(bytes, 1))
}

// Tries each line, with one session from line to line; the session after the last.
fn try_lines(rt: &impl Print, input: &[u8]) -> io::Result<Session>
    requires { length input.now ≤ 65536 }
    ensures { IfOk result (λ last. last ≡ try_lines fresh_of (lines_of input.now)) }
{
    let mut s = start::fresh();
    for line in text::Lines::of(input) {
        s = try_line(rt, s, line)?;
    }
    Ok(s)
}

// Tries each line of an input, and writes what it is answered; the session after the last. A longer input than the longest answers the single line `FF`.
pub fn try_all(rt: &impl Print, input: &[u8]) -> io::Result<Session>
    ensures { IfOk result (λ last. last ≡ try_all input.now) }
{
    if MOST < input.len() {
        show(rt, malformed())?;
        return Ok(start::fresh());
    }
    try_lines(rt, input)
}
