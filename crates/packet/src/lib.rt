// Command packets: 0xAA; address; command byte; 0 to 15 data bytes; sum.
// Promised: a built packet, whatever follows it, reads back as its parts and ends at its length; up to its end an accepted one is the one built from its parts.
// Left to others: which command a nibble with its data is (command), and that a wrong sum is answered (message).
#![tactic(auto)]

ghost use Rattle.std.specs.Prelude.{◌≡◌, ◌+◌, ◌≤◌, ◌++◌, length, drop};
ghost use Rattle.wire.specs.Numbers.{number_by};
ghost use Rattle.wire.specs.Promise.{Promise, Lending};
ghost use Rattle.wire.specs.Part.{Part};
ghost use Rattle.packet.specs.Packet.{frame_of, is_intact, read_of, data_from, data_part};
ghost use Rattle.packet.specs.Build.{packet_with, build_of};

use wire::{Address, Refusal};

// The first byte of every command packet.
pub const HEADER: u8 = 0xAA;

// What reading finds of a command packet: its parts and where it ends. The data bytes are `data_part`.
#[derive(Clone, Copy)]
pub struct Framed {
    pub address: Address,
    pub command: u8,
    pub end: usize,
}

// The command packet that some bytes begin with, or why it is none, never 3; whatever its sum and whatever follows it: the chain takes a wrong sum too.
#[tactic(auto, using(wire::specs::Promise::promised), unfolding(crate::specs::Packet::frame_of))]
pub fn frame(s: &[u8]) -> Result<Framed, Refusal>
    ensures { Promise number_by result (frame_of s.now) }
{
    if s.len() < 1 {
        return Err(Refusal::Short);
    }
    if s[0] != HEADER {
        return Err(Refusal::Header);
    }
    if s.len() < 4 {
        return Err(Refusal::Short);
    }
    let head = s[2];
    let end = 4 + (head / 16) as usize;
    if s.len() < end {
        return Err(Refusal::Short);
    }
    Ok(Framed {
        address: Address::of(s[1]),
        command: head % 16,
        end,
    })
}

// Whether the sum of a packet, which is all of these bytes, is right: the header isn't in it.
#[tactic(auto, unfolding(crate::specs::Packet::is_intact))]
pub fn is_intact(s: &[u8]) -> bool
    ensures { result ≡ is_intact s.now }
{
    if s.len() < 1 {
        return false;
    }
    buffer::ends_in_sum(&s[1..])
}

// The command packet that some bytes begin with, if its sum is right. The next one begins where it ends.
pub fn read(s: &[u8]) -> Result<Framed, Refusal>
    ensures { Promise number_by result (read_of s.now) }
{
    let frame = frame(s)?;
    if !is_intact(&s[..frame.end]) {
        return Err(Refusal::Sum);
    }
    Ok(frame)
}

// The data bytes of a packet, whatever follows it: the part of the input that starts at its fourth byte.
pub fn data_part(s: &[u8]) -> &[u8]
    ensures { Part s.entry data_from (data_part s.now) result }
{
    if s.len() < 3 {
        return &s[s.len()..];
    }
    let sum_at = 3 + (s[2] / 16) as usize;
    if s.len() < sum_at {
        return &s[3..];
    }
    &s[3..sum_at]
}

// Writes a packet that fits.
fn put_packet_with(address: u8, head: u8, bytes: &[u8], out: &mut [u8])
    requires { 4 + length bytes.now ≤ length out.old }
    ensures { out.new ≡ packet_with address head bytes.now ++ drop (4 + length bytes.now) out.old }
{
    let end = 3 + bytes.len();
    let start = address.wrapping_add(head);
    let total = start.wrapping_add(buffer::sum(bytes));
    out[0] = HEADER;
    out[1] = address;
    out[2] = head;
    buffer::put(out, 3, bytes);
    out[end] = total;
}

// Builds a command packet at the start of `out`, whose rest stays. Any address byte is taken; 6 comes before 5.
#[tactic(auto, using(wire::specs::Promise::lent), unfolding(crate::specs::Build::build_of))]
pub fn build(address: u8, command: u8, bytes: &[u8], out: &mut [u8]) -> Result<usize, Refusal>
    ensures { Lending number_by result out.new (build_of address command bytes.now out.old) }
{
    let n = bytes.len();
    if 15 < n {
        return Err(Refusal::Range);
    }
    if 15 < command {
        return Err(Refusal::Range);
    }
    if out.len() < 4 + n {
        return Err(Refusal::Room);
    }
    let head = command + (n as u8) * 16;
    put_packet_with(address, head, bytes, out);
    Ok(4 + n)
}
