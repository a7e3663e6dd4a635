// A first program: two gates get their addresses, the second one opens, and the host says what it knows of each.
#![tactic(auto)]

mod bench;

use bench::exchange;
use command::Command;
use node::Node;
use session::Session;
use std::io;
use wire::{Address, Individual, Kind, MOST_NODES};

// Prints a node's number, whether its outputs are known, and the outputs.
fn print(rt: &impl Print, s: Session, node: u8) -> io::Result<()> {
    if let Ok(entry) = session::look(s, Individual(node)) {
        let known = if entry.known.gate.outputs { 1 } else { 0 };
        let outputs = entry.settings.gate.outputs;
        let [low, high] = outputs.to_le_bytes();
        let mut line = [0; 12];
        let _ = hexadecimal::write_line(&[node, known, low, high], &mut line);
        rt.write_all(b"node, known, outputs: ")?;
        rt.write_all(&line)?;
    }
    Ok(())
}

fn main(rt: HostRuntime) -> io::Result<()> {
    let mut out = [0; 19];
    let kinds = [Kind::Gate; MOST_NODES];
    let up = start::power_up(start::fresh(), 2, kinds);
    // Every node hears this divisor at power-up: 19,200 baud.
    let at = Node::DIVISOR;
    // The walk: each node gets its address.
    let sent = walk::next(up.session, at, &mut out);
    let first = exchange(bench::two_nodes(), at, sent, &out);
    let sent = walk::next(first.session, at, &mut out);
    let second = exchange(first.chain, at, sent, &out);
    // The gate on outputs 0 and 2 of node 2 opens.
    let to = Address::Individual(Individual(2));
    let sent = host::order(second.session, at, to, Command::SetOutputs(5), &mut out);
    let open = exchange(second.chain, at, sent, &out);
    print(&rt, open.session, 1)?;
    print(&rt, open.session, 2)
}
