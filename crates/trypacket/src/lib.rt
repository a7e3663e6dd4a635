// The lines of `trials` that try packets: 10 builds one, 11 reads one, 12 reads a status packet.
// Promised: each shows what the call that it tries answers and leaves, as docs/TRIALS.md has it.
// Left to others: what the calls answer (packet, mask, status), and the other lines (trychain, tryhost, trysheet).
#![tactic(auto)]

ghost use Rattle.std.specs.Prelude.{◌≡◌};
ghost use Rattle.trypacket.specs.Trial.{build_into, trypacket_build, trypacket_read, read_under, read_status};

use fields::{
    Answer, MOST_ROOM, byte, filled, is_kind, is_lending, malformed, nothing, numbered, read_kind,
    room,
};
use text::rest;
use wire::{Kind, number};

// Builds a packet in what a line lends, and shows all of that.
#[tactic(auto, unfolding(crate::specs::Trial::build_into))]
fn build_into(args: &[u8], lent: &mut [u8]) -> Answer
    ensures { result ≡ build_into args.now lent.old }
{
    let built = packet::build(byte(args, 1), byte(args, 2), rest(args, 3), lent);
    numbered(number(built), lent)
}

// `room address command data..`: `NN buffer`.
#[tactic(auto, unfolding(crate::specs::Trial::trypacket_build))]
pub fn build(args: &[u8]) -> Answer
    ensures { result ≡ trypacket_build args.now }
{
    if is_lending(args, 3, MOST_ROOM) {
        let mut buffer = filled::<MOST_ROOM>();
        let room = room(args, MOST_ROOM);
        return build_into(args, &mut buffer[0..room]);
    }
    malformed()
}

// `bytes..`: `00 end address command data..`, else `NN`. Of what follows the packet nothing is shown.
pub fn read(args: &[u8]) -> Answer
    ensures { result ≡ trypacket_read args.now }
{
    let found = packet::read(args);
    let answer = nothing().put(number(found));
    match found {
        Ok(framed) => answer
            .put(framed.end as u8)
            .put(framed.address.byte())
            .put(framed.command)
            .put_all(packet::data_part(args)),
        Err(_) => answer,
    }
}

// A status packet of a kind of node, under a mask: `00 status items..`, else `NN`.
fn read_under(kind: Kind, mask: u8, s: &[u8]) -> Answer
    ensures { result ≡ read_under kind mask s.now }
{
    let found = mask::read(kind, s, mask);
    let answer = nothing().put(number(found));
    match found {
        Ok(first) => answer.put(first).put_all(status::items_part(s)),
        Err(_) => answer,
    }
}

// `KIND mask bytes..`: `00 status items..`, else `NN`.
#[tactic(auto, unfolding(crate::specs::Trial::read_status))]
pub fn read_status(args: &[u8]) -> Answer
    ensures { result ≡ read_status args.now }
{
    let kind = byte(args, 0);
    if args.len() < 2 || !is_kind(kind) {
        return malformed();
    }
    read_under(read_kind(kind), byte(args, 1), rest(args, 2))
}
