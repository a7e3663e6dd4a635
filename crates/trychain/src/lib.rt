// The line of `trials` that tries the chain: 20 delivers a packet to node records that are lent for that line alone.
// Promised: the line's answer, by what the table's owner is promised.
// Left to others: the records (layout), and every rule of the chain (chain).
#![tactic(auto)]

ghost use Rattle.std.specs.Prelude.{◌≡◌, take};
ghost use Rattle.fields.specs.Field.{fields_byte};
ghost use Rattle.fields.specs.Lending.{most_room, filled_of, room_of};
ghost use Rattle.trychain.specs.Delivering.{reply_length, put_delivered, deliver_to, trychain_deliver};

use chain::Delivery;
use fields::{Answer, MOST_ROOM, byte, filled, is_lending, malformed, nothing, room};
use layout::{are_nodes, nodes_length, put_nodes, read_nodes};
use table::{Delivered, Table};
use text::rest;
use wire::Refusal;

// The length of the reply: 0 for none, a collision or a refusal.
fn reply_length(answer: Result<Delivery, Refusal>) -> u8
    ensures { result ≡ reply_length answer }
{
    match answer {
        Ok(Delivery::Replied(n)) if n < 256 => n as u8,
        _ => 0,
    }
}

// `NN len buffer NODE*n`.
#[tactic(auto, unfolding(crate::specs::Delivering::put_delivered))]
fn put_delivered(d: Delivered, lent: &[u8], count: usize) -> Answer
    ensures { result ≡ put_delivered d lent.now count }
{
    let a = nothing()
        .put(Delivery::number(d.answer))
        .put(reply_length(d.answer))
        .put_all(lent);
    put_nodes(a, d.table.nodes, count)
}

// A packet behind so many node records, sent at a divisor.
#[tactic(auto, unfolding(crate::specs::Delivering::deliver_to))]
fn deliver_to(at: u8, records: &[u8], count: usize, lent: &mut [u8]) -> Answer
    ensures { result ≡ deliver_to at records.now count lent.old }
{
    let nodes = read_nodes(records);
    let packet = rest(records, nodes_length(records, count));
    let delivered = table::deliver(Table { nodes, count }, at, packet, lent);
    put_delivered(delivered, lent, count)
}

// The same, with the buffer that the line lends.
fn deliver_lent(args: &[u8], records: &[u8], count: usize) -> Answer
    ensures { result ≡ deliver_to (fields_byte args.now 1) records.now count (take (room_of args.now most_room) filled_of) }
{
    let mut buffer = filled::<MOST_ROOM>();
    let room = room(args, MOST_ROOM);
    deliver_to(byte(args, 1), records, count, &mut buffer[0..room])
}

// `room divisor n NODE*n packet..`: `NN len buffer NODE*n`.
#[tactic(auto, unfolding(crate::specs::Delivering::trychain_deliver))]
pub fn deliver(args: &[u8]) -> Answer
    ensures { result ≡ trychain_deliver args.now }
{
    let count = byte(args, 2) as usize;
    let records = rest(args, 3);
    if !is_lending(args, 3, MOST_ROOM) || !are_nodes(records, count) {
        return malformed();
    }
    deliver_lent(args, records, count)
}
