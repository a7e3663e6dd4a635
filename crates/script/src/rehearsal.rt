// The bench program as a function on slices: a node count, then a packet a line; an answer a line.
ghost use Rattle.std.specs.Prelude.{◌≡◌, ◌≤◌, length, replicate, ltb};
ghost use Rattle.wire.specs.Numbers.{number_by};
ghost use Rattle.wire.specs.Promise.{Lending};
ghost use Rattle.buffer.specs.Buffer.{written};
ghost use Rattle.status.specs.Status.{most_reply};
ghost use Rattle.node.specs.Effect.{divisor_up};
ghost use Rattle.table.specs.Table.{table_deliver};
ghost use Rattle.text.specs.Lines.{lines_of};
ghost use Rattle.buffer.specs.Wrote.{Wrote};
ghost use Rattle.script.specs.Line.{far};
ghost use Rattle.script.specs.Bench.{start_of, answer_step, refuse_step, play_of, run_of, run_with, rehearse_of};
ghost use Rattle.script.specs.Line.{Played};

use crate::answers::{put_answer_line, put_refused_line};
use node::{Bench, Node};
use table::Table;
use wire::{Kind, MOST_NODES, Refusal};

// The longest input, 64 KiB.
const MOST: usize = 65536;

// No text is longer (proofs/Bound).
const LONGEST: usize = 655360;

// The table after a line, and the position behind what was written for it.
#[derive(Clone, Copy)]
pub(crate) struct Step {
    pub table: Table,
    pub at: usize,
}

// The chain at the start: gates in power-up state, bench values 0.
#[tactic(auto, unfolding(crate::specs::Bench::start_of))]
fn start(count: usize) -> Table
    ensures { result ≡ start_of count }
{
    let fresh = Node::power_up(Kind::Gate, Bench::blank());
    Table {
        nodes: [fresh; table::ROOM],
        count,
    }
}

// A packet to the chain, as every line at the divisor of power-up; its answer as a line.
fn answer_step(table: Table, packet: &[u8], out: &mut [u8], at: usize) -> Step
    requires { at ≤ far }
    ensures { Played (answer_step (table_deliver table divisor_up packet.now (replicate most_reply 0))) at out.old result out.new }
{
    let mut reply = [0; status::MOST_REPLY];
    let d = table::deliver(table, Node::DIVISOR, packet, &mut reply);
    let answer = d.answer;
    let after = d.table;
    let p = put_answer_line(out, at, answer, &reply);
    Step {
        table: after,
        at: p,
    }
}

// A line that isn't of its form changes nothing.
fn refuse_step(table: Table, out: &mut [u8], at: usize) -> Step
    requires { at ≤ far }
    ensures { Played (refuse_step table) at out.old result out.new }
{
    let p = put_refused_line(out, at, Refusal::Range);
    Step { table, at: p }
}

// One packet line. Of a packet longer than any, 19 bytes, the first 20 are kept: the chain refuses it for these alone.
fn play(table: Table, line: &[u8], out: &mut [u8], at: usize) -> Step
    requires { at ≤ far }
    ensures { Played (play_of table line.now) at out.old result out.new }
{
    let mut packet = [0; 20];
    let found = hexadecimal::read_bytes(line, &mut packet);
    match found {
        Some(n) => answer_step(table, text::first(&packet, n), out, at),
        None => refuse_step(table, out, at),
    }
}

// All packet lines.
fn run(table: Table, packets: &[u8], out: &mut [u8]) -> usize
    requires { length packets.now ≤ 65536 }
    ensures { Wrote (run_of table (lines_of packets.now)) 0 out.old result out.new }
{
    let mut t = table;
    let mut p = 0;
    for line in text::Lines::of(packets) {
        let s = play(t, line, out, p);
        t = s.table;
        p = s.at;
    }
    p
}

// The rehearsal with n nodes, 1 to 31.
fn run_with(n: u8, packets: &[u8], out: &mut [u8]) -> usize
    requires { length packets.now ≤ 65536 }
    ensures { Wrote (run_with n (lines_of packets.now)) 0 out.old result out.new }
{
    if n < 1 {
        return put_refused_line(out, 0, Refusal::Range);
    }
    if MOST_NODES < n as usize {
        return put_refused_line(out, 0, Refusal::Range);
    }
    run(start(n as usize), packets, out)
}

// The whole text, if there is room; how long it is.
fn perform(input: &[u8], out: &mut [u8]) -> usize
    ensures { Wrote (rehearse_of input.now) 0 out.old result out.new }
{
    if MOST < input.len() {
        return put_refused_line(out, 0, Refusal::Range);
    }
    let line = text::first_line(input);
    match text::read_decimal(line) {
        Some(n) => run_with(n, text::rest(input, line.len() + 1), out),
        None => put_refused_line(out, 0, Refusal::Range),
    }
}

// Whether the text has no room. Only where some text has none is it gone through, to find its length.
fn lacks_room(input: &[u8], room: usize) -> bool
    ensures { result ≡ ltb room (length (rehearse_of input.now)) }
{
    if LONGEST <= room {
        return false;
    }
    let mut none = [0; 1];
    let n = perform(input, &mut none);
    room < n
}

// What the bench program writes for what it read, at the start of `output`, whose rest stays.
// Nothing is written where the text has no room.
pub fn rehearse(input: &[u8], output: &mut [u8]) -> Result<usize, Refusal>
    ensures { Lending number_by result output.new (written (rehearse_of input.now) output.old) }
{
    if lacks_room(input, output.len()) {
        return Err(Refusal::Room);
    }
    let m = perform(input, output);
    Ok(m)
}
