// The program `play`: a node count and a movement sheet on standard input, and on standard output what the bench answers to the sheet's packets;
// or why not, in a line on standard error.
#![tactic(auto)]

ghost use Rattle.std.specs.Prelude.{◌≡◌, ◌≤◌, ◌<◌, length};

use sheet::ImportError;
use std::io;
use wire::MOST_NODES;

// The bench's longest input.
const MOST_SCRIPT: usize = 65536;

// A function, so that a contract says how long it is; so are the rooms below.
fn script_room() -> [u8; MOST_SCRIPT]
    ensures { 65536 ≡ length result }
{
    reading::room()
}

// The most bytes of packets that it has room for: a line has three characters for each byte, and the count's line has at most three.
const MOST_BYTES: usize = (MOST_SCRIPT - 3) / 3;

// Room for the count's line, the longest sheet, and one byte more, which tells that it is longer.
const INPUT: usize = 3 + sheet::MOST + 1;

fn input_room() -> [u8; INPUT]
    ensures { 65540 ≡ length result }
{
    reading::room()
}

// Room for the packets of any sheet: a packet is no longer than its line (sheet/proofs/Lengths).
const PACKETS: usize = sheet::MOST;

fn packets_room() -> [u8; PACKETS]
    ensures { 65536 ≡ length result }
{
    reading::room()
}

// Room for the bench's longest output (script/proofs/Bound).
const OUTPUT: usize = 655360;

fn output_room() -> [u8; OUTPUT]
    ensures { 655360 ≡ length result }
{
    reading::room()
}

// Whether a line is a node count as the bench takes it.
fn is_count(line: &[u8]) -> bool {
    match text::read_decimal(line) {
        Some(n) => (0 < n) & (n as usize <= MOST_NODES),
        None => false,
    }
}

// A packet's line, from `at` on. The longest packet has 19 bytes.
fn put_line(script: &mut [u8], at: usize, packet: &[u8]) {
    let mut line = [0; 3 * 19];
    if let Ok(n) = hexadecimal::write_line(packet, &mut line) {
        buffer::put(script, at, text::first(&line, n));
    }
}

// The line of the packet at a position of the list, behind the count's line and those of the packets before it. Where the next packet is.
fn put_next(script: &mut [u8], count: &[u8], packets: &[u8], at: usize) -> usize
    requires { (at < length packets.now) × (length packets.now ≤ 21844) }
    ensures { (at < result) × (result ≤ length packets.now) }
{
    let tail = text::rest(packets, at);
    match packet::frame(tail) {
        Ok(framed) => {
            put_line(script, count.len() + 3 * at, text::first(tail, framed.end));
            at + framed.end
        }
        // It never comes to this: what was imported are packets.
        Err(_) => packets.len(),
    }
}

// The bench's input: the count's line, then a line for each packet. Where it ends.
fn put_script(script: &mut [u8], count: &[u8], packets: &[u8]) -> usize
    requires { length packets.now ≤ 21844 }
{
    buffer::put(script, 0, count);
    let mut at = 0;
    // By position, which is where the packet's line goes as well.
    while at < packets.len() {
        at = put_next(script, count, packets, at);
    }
    count.len() + 3 * at
}

// Rehearses packets, with the count's line.
fn rehearse(rt: &(impl Print + Eprint), count: &[u8], packets: &[u8]) -> io::Result<()> {
    if MOST_BYTES < packets.len() {
        return rt.eprintln("more than 64 KiB in the bench's form");
    }
    let mut script = script_room();
    let mut output = output_room();
    let end = put_script(&mut script, count, packets);
    match script::rehearse(text::first(&script, end), &mut output) {
        Ok(n) => rt.write_all(text::first(&output, n)),
        // It never comes to this: the output has room.
        Err(_) => Ok(()),
    }
}

// Plays a sheet, with the count's line.
fn play(rt: &(impl Print + Eprint), count: &[u8], sheet: &[u8]) -> io::Result<()> {
    let mut packets = packets_room();
    match sheet::import(sheet, &mut packets) {
        Ok(n) => rehearse(rt, count, text::first(&packets, n)),
        Err(ImportError::Line(line)) => eprintln!(rt; "line {line}: not a HEX line"),
        // 6. It never comes to 5: the packets have room.
        Err(ImportError::Refused(_)) => rt.eprintln("the sheet is longer than 64 KiB"),
    }
}

fn main(rt: HostRuntime) -> io::Result<()> {
    let mut room = input_room();
    let n = reading::read_full(&mut rt.stdin(), &mut room)?;
    let input = &room[..n];
    let line = text::first_line(input);
    if is_count(line) {
        let end = line.len() + 1;
        play(&rt, text::first(input, end), text::rest(input, end))
    } else {
        rt.eprintln("the first line is not a node count, 1 to 31")
    }
}
