// What a node sends back: the status packet, with its kind's items of Define Status in their order, least significant byte first.
// It is written straight into the lent buffer and grows there, item by item, its sum carried along: after each item a whole status packet stands in it.
// Promised: every reply is good, says by bit 1 whether the sum was wrong, and reads back under its mask as the items asked for.
// Left to others: whether the node replies at all (message, survey).
#![tactic(auto)]

ghost use Rattle.std.specs.Prelude.{◌≡◌, ◌+◌, ◌<◌, ◌≤◌, length};
ghost use Rattle.wire.specs.Numbers.{number_by};
ghost use Rattle.wire.specs.Promise.{Lending};
ghost use Rattle.buffer.specs.Buffer.{written};
ghost use Rattle.reply.specs.Items.{bytes_of, gate_values, drive_values, values_of, item_of, reply_items};
ghost use Rattle.reply.specs.Grown.{has_room, reply_begin, Grown};
ghost use Rattle.reply.specs.Reply.{own_mask, mask_of, status_byte, reply_of};

use command::Role;
use message::Message;
use node::{Node, Shown};
use wire::{Kind, Refusal};

// The mask of a command's reply: Read Status has its own.
fn own_mask(role: Role, held: u8) -> u8
    ensures { result ≡ own_mask role held }
{
    match role {
        Role::Masks(mask) => mask,
        _ => held,
    }
}

// Under which mask a node replies; `held` is the one that it holds once it has acted.
fn mask_of(message: Message, held: u8) -> u8
    ensures { result ≡ mask_of message held }
{
    match message {
        Message::Intact(c) => own_mask(c.role(), held),
        Message::Other | Message::Spoilt => held,
    }
}

// Bit 1: the command had a wrong sum.
fn status_byte(message: Message) -> u8
    ensures { result ≡ status_byte message }
{
    match message {
        Message::Intact(_) | Message::Other => 0,
        Message::Spoilt => 2,
    }
}

// The values of a gate's items, from bit 0 of the mask on; `status::counts` has their byte counts. Device ID and version are one item, at either kind.
fn gate_values(x: Shown) -> [u32; 8]
    ensures { result ≡ gate_values x }
{
    let b = x.bench;
    let k = x.captured;
    [
        b.inputs as u32,
        b.analog0 as u32,
        b.analog1 as u32,
        b.analog2 as u32,
        b.counter,
        u16::from_le_bytes([b.id, b.version]) as u32,
        k.inputs as u32,
        k.counter,
    ]
}

// Those of a drive's; the last has no byte.
fn drive_values(x: Shown) -> [u32; 8]
    ensures { result ≡ drive_values x }
{
    let b = x.bench;
    [
        x.position,
        b.ad as u32,
        b.velocity as u32,
        b.auxiliary as u32,
        b.home,
        u16::from_le_bytes([b.id, b.version]) as u32,
        b.error as u32,
        0,
    ]
}

// By the kind.
fn values(x: Shown) -> [u32; 8]
    ensures { result ≡ values_of x }
{
    match x.kind {
        Kind::Gate => gate_values(x),
        Kind::Drive => drive_values(x),
    }
}

// Whether the status packet under a mask has room. Where the longest has, which is the usual case, there is nothing to count.
fn has_room(kind: Kind, mask: u8, room: usize) -> bool
    ensures { result ≡ has_room kind mask room }
{
    status::MOST_REPLY <= room || mask::size(kind, mask) <= room
}

// A status packet with no item yet, whose sum is the status byte itself; where the sum stands.
fn begin(out: &mut [u8], status: u8) -> usize
    requires { 2 ≤ length out.old }
    ensures { record { answer = result; left = out.new } ≡ reply_begin status out.old }
{
    out[0] = status;
    out[1] = status;
    1
}

// An item more, if it is asked for: its bytes from `end` on, where the sum stands, least significant first, and the sum behind them; where the sum then stands.
fn put_item(out: &mut [u8], end: usize, wanted: bool, count: usize, value: u32) -> usize
    requires { end + length (item_of wanted (bytes_of count value)) < length out.old }
    ensures { Grown (item_of wanted (bytes_of count value)) end out.old result out.new }
{
    if !wanted {
        return end;
    }
    let mut sum = out[end];
    let mut rest = value;
    for i in 0..count {
        let b = (rest % 256) as u8;
        out[end + i] = b;
        sum = sum.wrapping_add(b);
        rest /= 256;
    }
    out[end + count] = sum;
    end + count
}

// The items that a mask asks for, in their order, from `end` on, where the sum stands; where it then stands.
fn put_items(x: Shown, mask: u8, out: &mut [u8], end: usize) -> usize
    requires { end + length (reply_items mask x) < length out.old }
    ensures { Grown (reply_items mask x) end out.old result out.new }
{
    let counts = status::counts(x.kind);
    let values = values(x);
    let mut bits = mask;
    let mut at = end;
    for (count, value) in counts.iter().zip(&values) {
        at = put_item(out, at, bits % 2 == 1, *count as usize, *value);
        bits /= 2;
    }
    at
}

// The reply of a node, as it stands before the packet, at the start of `out`, whose rest stays; 5 where it has no room, which the mask tells before a byte is written.
// The node that has acted is not made for it: what a reply shows of it is little, and the rest would have to be copied.
pub fn reply(n: Node, message: Message, out: &mut [u8]) -> Result<usize, Refusal>
    ensures { Lending number_by result out.new (written (reply_of message n) out.old) }
{
    let mask = mask_of(message, n.mask_after(message));
    if !has_room(n.kind, mask, out.len()) {
        return Err(Refusal::Room);
    }
    let begun = begin(out, status_byte(message));
    let end = put_items(n.shown(message), mask, out, begun);
    Ok(end + 1)
}
