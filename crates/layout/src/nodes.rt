// NODE: KIND, divisor, place (3), addressed, mask, and then
// of a gate its settings (9), bench values (11), captured ones (6); of a drive its settings (42), its position and bench values (16).
ghost use Rattle.std.specs.Prelude.{◌≡◌, ◌≤◌};
ghost use Rattle.layout.specs.Nodes.{node_length, is_node, are_nodes, nodes_length, gate_bench, drive_bench, read_captured, read_gate_node, read_drive_node, read_node, read_nodes};
ghost use Rattle.layout.specs.Nodes.{put_gate_bench, put_drive_bench, put_captured, put_shown, put_node, put_nodes};

use crate::settings::{put_place, put_settings, read_place, read_settings};
use fields::{Answer, byte, is_kind, long, read_kind, word};
use node::{Bench, Captured, Node};
use text::rest;
use wire::Kind;

// The twins of NODE and ENTRY stay two: a trait for both, of length, form, reading and writing with the definition of each, has more lines than the short loops that it would join.
// How many bytes a record has, by its kind.
const GATE_NODE: usize = 33;

const DRIVE_NODE: usize = 65;

// How many records a line may lend, and a table has room for.
const MOST_LENT: usize = wire::MOST_NODES + 2;

// How many bytes the record at the start of s has.
fn node_length(s: &[u8]) -> usize
    ensures value { result ≡ node_length s.now }
    ensures within { result ≤ 65 }
{
    match read_kind(byte(s, 0)) {
        Kind::Gate => GATE_NODE,
        Kind::Drive => DRIVE_NODE,
    }
}

// Whether s starts with a record: its kind is one, all of it is there, leader and addressed are flags, 00 or 01.
fn is_node(s: &[u8]) -> bool
    ensures { result ≡ is_node s.now }
{
    // By `&`: with `&&` a goal has the name of a number that is tested, so that a wrong number is refused for the name alone.
    is_kind(byte(s, 0)) & (node_length(s) <= s.len()) & (byte(s, 4) < 2) & (byte(s, 5) < 2)
}

// Whether s starts with so many records, and a line may lend them.
pub fn are_nodes(s: &[u8], count: usize) -> bool
    ensures { result ≡ are_nodes s.now count }
{
    if MOST_LENT < count {
        return false;
    }
    let mut at = 0;
    for _ in 0..count {
        let record = rest(s, at);
        if !is_node(record) {
            return false;
        }
        at += node_length(record);
    }
    true
}

// How many bytes the first records of s have, as many as `count` says, where a line may lend them.
pub fn nodes_length(s: &[u8], count: usize) -> usize
    ensures { result ≡ nodes_length s.now count }
{
    if MOST_LENT < count {
        return 0;
    }
    let mut at = 0;
    for _ in 0..count {
        at += node_length(rest(s, at));
    }
    at
}

// A gate's: inputs (2), counter (4), analog 0, 1, 2, device ID, version.
fn gate_bench(s: &[u8]) -> Bench
    ensures { result ≡ gate_bench s.now }
{
    Bench {
        counter: long(s, 2),
        home: 0,
        inputs: word(s, 0),
        velocity: 0,
        error: 0,
        analog0: byte(s, 6),
        analog1: byte(s, 7),
        analog2: byte(s, 8),
        ad: 0,
        auxiliary: 0,
        id: byte(s, 9),
        version: byte(s, 10),
    }
}

// A drive's, behind its position (4): A/D value, velocity (2), auxiliary status, home position (4), device ID, version, position error (2).
fn drive_bench(s: &[u8]) -> Bench
    ensures { result ≡ drive_bench s.now }
{
    Bench {
        counter: 0,
        home: long(s, 8),
        inputs: 0,
        velocity: word(s, 5),
        error: word(s, 14),
        analog0: 0,
        analog1: 0,
        analog2: 0,
        ad: byte(s, 4),
        auxiliary: byte(s, 7),
        id: byte(s, 12),
        version: byte(s, 13),
    }
}

// Inputs (2), counter (4).
fn read_captured(s: &[u8]) -> Captured
    ensures { result ≡ read_captured s.now }
{
    Captured {
        counter: long(s, 2),
        inputs: word(s, 0),
    }
}

// What a gate's record has behind its kind.
fn read_gate_node(s: &[u8]) -> Node
    ensures { result ≡ read_gate_node s.now }
{
    Node {
        settings: read_settings(Kind::Gate, byte(s, 0), read_place(rest(s, 1)), rest(s, 5)),
        bench: gate_bench(rest(s, 15)),
        captured: read_captured(rest(s, 26)),
        position: 0,
        addressed: byte(s, 4) == 1,
        kind: Kind::Gate,
    }
}

// What a drive's has.
fn read_drive_node(s: &[u8]) -> Node
    ensures { result ≡ read_drive_node s.now }
{
    let shown = rest(s, 48);
    Node {
        settings: read_settings(Kind::Drive, byte(s, 0), read_place(rest(s, 1)), rest(s, 5)),
        bench: drive_bench(shown),
        captured: Captured {
            counter: 0,
            inputs: 0,
        },
        position: long(shown, 0),
        addressed: byte(s, 4) == 1,
        kind: Kind::Drive,
    }
}

// The record at the start of s.
fn read_node(s: &[u8]) -> Node
    ensures { result ≡ read_node s.now }
{
    match read_kind(byte(s, 0)) {
        Kind::Gate => read_gate_node(rest(s, 1)),
        Kind::Drive => read_drive_node(rest(s, 1)),
    }
}

// The records at the start of s, as many as a table has room for.
pub fn read_nodes(s: &[u8]) -> [Node; MOST_LENT]
    ensures { result ≡ read_nodes s.now }
{
    let mut nodes = [read_node(s); MOST_LENT];
    let mut at = 0;
    for node in nodes.iter_mut() {
        let record = rest(s, at);
        *node = read_node(record);
        at += node_length(record);
    }
    nodes
}

// With a gate's bench values more.
fn put_gate_bench(a: Answer, b: Bench) -> Answer
    ensures { result ≡ put_gate_bench a b }
{
    a.put_word(b.inputs)
        .put_long(b.counter)
        .put_all(&[b.analog0, b.analog1, b.analog2, b.id, b.version])
}

// With captured ones more.
fn put_captured(a: Answer, k: Captured) -> Answer
    ensures { result ≡ put_captured a k }
{
    a.put_word(k.inputs).put_long(k.counter)
}

// With a drive's position and bench values more.
fn put_drive_bench(a: Answer, position: u32, b: Bench) -> Answer
    ensures { result ≡ put_drive_bench a position b }
{
    a.put_long(position)
        .put(b.ad)
        .put_word(b.velocity)
        .put(b.auxiliary)
        .put_long(b.home)
        .put(b.id)
        .put(b.version)
        .put_word(b.error)
}

// With what stands behind a node's settings more, by its kind.
fn put_shown(a: Answer, n: Node) -> Answer
    ensures { result ≡ put_shown a n.kind n }
{
    match n.kind {
        Kind::Gate => put_captured(put_gate_bench(a, n.bench), n.captured),
        Kind::Drive => put_drive_bench(a, n.position, n.bench),
    }
}

// With a node more.
fn put_node(a: Answer, n: Node) -> Answer
    ensures { result ≡ put_node a n }
{
    let a = put_place(a.put_kind(n.kind).put(n.settings.divisor), n.settings.place);
    put_shown(put_settings(a.put_flag(n.addressed), n.kind, n.settings), n)
}

// With the first `count` nodes more.
pub fn put_nodes(a: Answer, nodes: [Node; MOST_LENT], count: usize) -> Answer
    ensures { result ≡ put_nodes a nodes count }
{
    // By `for`, as in `Answer::put_all`.
    let mut all = a;
    for n in &nodes[..count.min(MOST_LENT)] {
        all = put_node(all, *n);
    }
    all
}
