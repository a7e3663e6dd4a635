// Trials: one line in, one line out, so that any outside program can hold the proved code to its own reading of the paper. docs/TRIALS.md has the forms of the lines.
#![tactic(auto)]

use std::io;

fn main(rt: HostRuntime) -> io::Result<()> {
    let mut input = trylines::input_room();
    let n = reading::read_full(&mut rt.stdin(), &mut input)?;
    trylines::try_all(&rt, &input[..n])?;
    Ok(())
}
