// The program `export`: packets back to back on standard input, their sheet on standard output; or why not, in a line on standard error.
#![tactic(auto)]

ghost use Rattle.std.specs.Prelude.{◌≡◌, length};

use std::io;
use wire::Refusal;

// The most bytes of packets.
const MOST_PACKETS: usize = 65536;

// One byte more, which tells that they are more.
const PACKETS: usize = MOST_PACKETS + 1;

// A function, so that a contract says how long it is; so are the rooms below.
fn packets_room() -> [u8; PACKETS]
    ensures { 65537 ≡ length result }
{
    reading::room()
}

// Room for their sheet: a line has three characters for each byte of its packet, less two (sheet/proofs/Lengths).
const SHEET: usize = 3 * MOST_PACKETS;

fn sheet_room() -> [u8; SHEET]
    ensures { 196608 ≡ length result }
{
    reading::room()
}

// The number of the first packet that doesn't read, from 1.
fn first_fault(packets: &[u8]) -> usize {
    let mut at = 0;
    let mut passed = 0;
    // By position, since a packet says where it ends: an iterator would be made for this loop alone.
    while at < packets.len() {
        let Ok(framed) = packet::read(text::rest(packets, at)) else {
            return passed + 1;
        };
        passed += 1;
        at += framed.end;
    }
    passed + 1
}

// The refusal has no packet's number with it: it is looked for here.
fn say_fault(rt: &impl Eprint, packets: &[u8], why: Refusal) -> io::Result<()> {
    let number = first_fault(packets);
    match why {
        Refusal::Short => eprintln!(rt; "packet {number}: cut short"),
        Refusal::Header => eprintln!(rt; "packet {number}: no header"),
        Refusal::Sum => eprintln!(rt; "packet {number}: wrong sum"),
        // It never comes to this: export has no other refusal but 5, and the sheet has room.
        _ => eprintln!(rt; "packet {number}"),
    }
}

fn main(rt: HostRuntime) -> io::Result<()> {
    let mut input = packets_room();
    let mut sheet = sheet_room();
    let n = reading::read_full(&mut rt.stdin(), &mut input)?;
    if MOST_PACKETS < n {
        return rt.eprintln("more than 64 KiB of packets");
    }
    let packets = &input[..n];
    match sheet::export(packets, &mut sheet) {
        Ok(m) => rt.write_all(text::first(&sheet, m)),
        Err(why) => say_fault(&rt, packets, why),
    }
}
