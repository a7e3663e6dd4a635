// The chain's table as its owner keeps it: an array with a count, lent to the chain call by call.
// Promised: what the chain promises of the nodes that are counted; those behind them stay.
// Left to others: every rule of the chain (chain).
#![tactic(auto)]

ghost use Rattle.std.specs.Prelude.{◌≡◌};
ghost use Rattle.wire.specs.Promise.{Lending};
ghost use Rattle.table.specs.Table.{delivered_number, table_deliver};

use chain::Delivery;
use node::Node;
use wire::{MOST_NODES, Refusal};

// How many nodes a table has room for: two more than a chain may have,
// so that a table that is too long can be lent as well, and is refused.
pub const ROOM: usize = MOST_NODES + 2;

// The first `count` nodes, in the order of the cable, are the chain. The paper names this form: "an array with a count".
#[derive(Clone, Copy)]
pub struct Table {
    pub nodes: [Node; ROOM],
    pub count: usize,
}

#[derive(Clone, Copy)]
pub struct Delivered {
    pub answer: Result<Delivery, Refusal>,
    pub table: Table,
}

// A packet to the chain that the table holds, sent at a divisor. Where the count is more than there is room for, all records are lent, and refused; the count stays.
pub fn deliver(t: Table, at: u8, packet: &[u8], reply: &mut [u8]) -> Delivered
    ensures { Lending delivered_number result reply.new (table_deliver t at packet.now reply.old) }
{
    let mut nodes = t.nodes;
    let n = t.count.min(ROOM);
    let answer = chain::deliver(&mut nodes[..n], at, packet, reply);
    let table = Table { nodes, ..t };
    Delivered { answer, table }
}
