// The program `replay`: the text of a recording on standard input, and on standard output what each packet says and did, and the host's record at the end;
// or why not, in a line on standard error.
#![tactic(auto)]

mod drive;
mod gate;
mod kinds;
mod packets;
mod record;
mod runs;
mod setting;
mod values;
mod words;

ghost use Rattle.std.specs.Prelude.{◌≡◌, length};

use capture::{Line, Recording};
use kinds::Nodes;
use std::io;

// The longest recording, as text.
const MOST: usize = 65536;

// One byte more, which tells that it is longer.
const INPUT: usize = MOST + 1;

// A function, so that a contract says how long it is.
fn input_room() -> [u8; INPUT]
    ensures { 65537 ≡ length result }
{
    reading::room()
}

// The most bytes that it has on a line: each has two digits and a space before them.
const MOST_BYTES: usize = MOST / 3;

// Room for the times of a line.
fn times_room() -> [u32; MOST_BYTES]
    ensures { 21845 ≡ length result }
{
    [0; MOST_BYTES]
}

// Walks through the runs, all of the form, and writes the record.
fn walk(rt: &impl Print, nodes: Nodes, text: &[u8]) -> io::Result<()> {
    let mut command_bytes = reading::room::<MOST_BYTES>();
    let mut command_times = times_room();
    let mut reply_bytes = reading::room::<MOST_BYTES>();
    let mut reply_times = times_room();
    let taken = Recording {
        command: runs::gather(text, Line::Command, &mut command_bytes, &mut command_times),
        reply: runs::gather(text, Line::Reply, &mut reply_bytes, &mut reply_times),
    };
    let session = packets::replay(rt, nodes.n, nodes.kinds, taken)?;
    record::put_record(rt, session)
}

// Looks at all lines of runs before the first is walked through.
fn check_and_walk(rt: &(impl Print + Eprint), nodes: Nodes, text: &[u8]) -> io::Result<()> {
    match runs::survey(text) {
        Ok(()) => walk(rt, nodes, text),
        Err(fault) => eprintln!(rt; "{fault}"),
    }
}

fn main(rt: HostRuntime) -> io::Result<()> {
    let mut room = input_room();
    let size = reading::read_full(&mut rt.stdin(), &mut room)?;
    if MOST < size {
        return eprintln!(&rt; "the recording is longer than 64 KiB");
    }
    let input = &room[..size];
    let line = text::first_line(input);
    match kinds::read(line) {
        Some(nodes) => check_and_walk(&rt, nodes, text::rest(input, line.len() + 1)),
        None => eprintln!(&rt;
            "the first line is not a node count, 1 to 31, alone or with the kind of each node"
        ),
    }
}
