// ORDER: `kind target FAMILY command-byte data..`, with as many data bytes as the command byte counts.
// FAMILY: 00 the command as the LS-773 has it, 01 as the LS-173AP has it, of which only its own five.
ghost use Rattle.std.specs.Prelude.{◌≡◌};
ghost use Rattle.state.specs.Order.{data_count, read_family, read_order, is_order, read_command, read_target, target_kind, family_of, put_order};

use command::Command;
use fields::{Answer, byte};
use text::rest;
use wire::{Address, Group, Individual, Kind};

// How many data bytes the command byte of the order at the start of s counts.
pub(crate) fn data_count(s: &[u8]) -> u8
    ensures { result ≡ data_count s.now }
{
    byte(s, 3) / 16
}

// A command as its family has it. Of a drive's own no range is looked at: that is the call's to do.
#[tactic(auto, unfolding(crate::specs::Order::read_family))]
fn read_family(family: u8, command: u8, bytes: &[u8]) -> Option<Command>
    ensures { result ≡ read_family family command bytes.now }
{
    match family {
        0 => codec::read(Kind::Gate, command, bytes),
        1 => codec::drive_own(command, bytes),
        _ => None,
    }
}

// The command of s, where it is an order.
#[tactic(auto, unfolding(crate::specs::Order::read_order))]
fn read_order(s: &[u8]) -> Option<Command>
    ensures { result ≡ read_order s.now }
{
    if s.len() < 4 || s.len() != 4 + data_count(s) as usize || 1 < byte(s, 0) {
        return None;
    }
    read_family(byte(s, 2), byte(s, 3) % 16, rest(s, 4))
}

// Whether s is an order: Set Baud Rate only to a group.
pub fn is_order(s: &[u8]) -> bool
    ensures { result ≡ is_order s.now }
{
    match read_order(s) {
        Some(c) => !c.role().is_pacing() || byte(s, 0) == 1,
        None => false,
    }
}

// The command of an order.
pub fn read_command(s: &[u8]) -> Command
    ensures { result ≡ read_command s.now }
{
    match read_order(s) {
        Some(command) => command,
        None => Command::Nop,
    }
}

// Whom it is for: a node (kind 00) or a group (kind 01).
#[tactic(auto, unfolding(crate::specs::Order::read_target))]
pub fn read_target(s: &[u8]) -> Address
    ensures { result ≡ read_target s.now }
{
    let number = byte(s, 1);
    if byte(s, 0) < 1 {
        return Address::Individual(Individual(number));
    }
    Address::Group(Group(number))
}

// 00 for a node, 01 for a group.
fn target_kind(to: Address) -> u8
    ensures { result ≡ target_kind to }
{
    match to {
        Address::Individual(_) => 0,
        Address::Group(_) => 1,
    }
}

// 01 for what only the LS-173AP has.
fn family(c: Command) -> u8
    ensures { result ≡ family_of c }
{
    if command::has(Kind::Gate, c) { 0 } else { 1 }
}

// With an order more: the command byte is a packet's third, and its data bytes follow. The packet's address is no part of what is shown.
#[tactic(auto, unfolding(crate::specs::Order::put_order))]
pub(crate) fn put_order(a: Answer, to: Address, c: Command) -> Answer
    ensures { result ≡ put_order a to c }
{
    let mut packet = [0; 19];
    // It has room: no packet is longer.
    let _ = codec::put_packet_to(0, c, &mut packet);
    a.put_all(&[target_kind(to), to.byte(), family(c), packet[2]])
        .put_all(packet::data_part(&packet))
}
