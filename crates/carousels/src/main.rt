// Carousels: the program `trials` once more, run on lines of drives. An input has 64 KiB, and those of gates fill one.
#![tactic(auto)]

use std::io;

fn main(rt: HostRuntime) -> io::Result<()> {
    let mut input = trylines::input_room();
    let n = reading::read_full(&mut rt.stdin(), &mut input)?;
    trylines::try_all(&rt, &input[..n])?;
    Ok(())
}
