// The bench program: standard input to standard output, by `script::rehearse`.
#![tactic(auto)]

ghost use Rattle.std.specs.Prelude.{◌≡◌, length};

use std::io;

// Room for the longest input, 64 KiB, and one byte more, which tells that it is longer.
const INPUT: usize = 65537;

// A function, so that a contract says how long it is; so are the rooms below.
fn input_room() -> [u8; INPUT]
    ensures { 65537 ≡ length result }
{
    reading::room()
}

// Room for the longest output (script/proofs/Bound).
const OUTPUT: usize = 655360;

fn output_room() -> [u8; OUTPUT]
    ensures { 655360 ≡ length result }
{
    reading::room()
}

fn main(rt: HostRuntime) -> io::Result<()> {
    let mut input = input_room();
    let mut output = output_room();
    let n = reading::read_full(&mut rt.stdin(), &mut input)?;
    match script::rehearse(&input[..n], &mut output) {
        Ok(m) => rt.write_all(&output[..m]),
        // It never comes to this: the output has room.
        Err(_) => Ok(()),
    }
}
