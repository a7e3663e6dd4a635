// The program `import`: a movement sheet on standard input, its packets on standard output; or why not, in a line on standard error.
#![tactic(auto)]

ghost use Rattle.std.specs.Prelude.{◌≡◌, length};

use sheet::ImportError;
use std::io;

// One byte more than the longest sheet has, which tells that it is longer.
const SHEET: usize = sheet::MOST + 1;

// A function, so that a contract says how long it is; so are the rooms below.
fn sheet_room() -> [u8; SHEET]
    ensures { 65537 ≡ length result }
{
    reading::room()
}

// Room for the packets of any sheet: a packet is no longer than its line (sheet/proofs/Lengths).
const PACKETS: usize = sheet::MOST;

fn packets_room() -> [u8; PACKETS]
    ensures { 65536 ≡ length result }
{
    reading::room()
}

fn main(rt: HostRuntime) -> io::Result<()> {
    let mut input = sheet_room();
    let mut packets = packets_room();
    let n = reading::read_full(&mut rt.stdin(), &mut input)?;
    match sheet::import(&input[..n], &mut packets) {
        Ok(m) => rt.write_all(text::first(&packets, m)),
        Err(ImportError::Line(line)) => eprintln!(rt; "line {line}: not a HEX line"),
        // 6. It never comes to 5: the packets have room.
        Err(ImportError::Refused(_)) => rt.eprintln("the sheet is longer than 64 KiB"),
    }
}
