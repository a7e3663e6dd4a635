// Packets in, their sheet out.
ghost use Rattle.std.specs.Prelude.{◌≡◌, ◌+◌, ◌*◌, ◌≤◌, length};
ghost use Rattle.wire.specs.Numbers.{number_by};
ghost use Rattle.wire.specs.Promise.{Lending};
ghost use Rattle.buffer.specs.Wrote.{Wrote};
ghost use Rattle.sheet.specs.Packets.{packets_of, sheet_line, sheet_of, export_of};
ghost use Rattle.sheet.specs.Reading.{count_packets, HasRoom, sheet_lines};

use text::{first, rest};
use wire::Refusal;

// How many packets there are, each of them read: one pass over the list.
fn count_packets(packets: &[u8]) -> Result<usize, Refusal>
    ensures { result ≡ count_packets (packets_of packets.now) }
{
    let mut at = 0;
    let mut count = 0;
    // No iterator: this loop goes by `read` and that of `put_lines` by `frame`, which would be two iterators, for one loop each.
    while at < packets.len() {
        let framed = packet::read(rest(packets, at))?;
        count += 1;
        at += framed.end;
    }
    Ok(count)
}

// The line of a packet, from `at` on; the position behind it.
fn put_line(out: &mut [u8], at: usize, packet: &[u8]) -> usize
    requires { (4 ≤ length packet.now) × (at + 3 * length packet.now ≤ length out.old + 2) }
    ensures { Wrote (sheet_line packet.now) at out.old result out.new }
{
    let n = packet.len() - 1;
    buffer::put(out, at, b"HEX ");
    let _ = hexadecimal::write_line(&packet[1..n], &mut out[at + 4..]);
    at + 4 + 3 * (n - 1)
}

// The lines of packets that all read and whose lines have room.
fn put_lines(packets: &[u8], out: &mut [u8])
    requires { HasRoom (sheet_of (packets_of packets.now)) 0 (length out.old) }
    ensures { out.new ≡ sheet_lines packets.now out.old }
{
    let mut at = 0;
    let mut to = 0;
    // No iterator: see `count_packets`.
    while at < packets.len() {
        // By its frame: its sum was looked at when it was counted.
        let tail = rest(packets, at);
        match packet::frame(tail) {
            // It never comes to this.
            Err(_) => {
                return;
            }
            Ok(framed) => {
                to = put_line(out, to, first(tail, framed.end));
                at += framed.end;
            }
        }
    }
}

// The lines of some packets, at the start of `out`, whose rest stays. A refusal leaves it as it stood.
pub fn export(packets: &[u8], out: &mut [u8]) -> Result<usize, Refusal>
    ensures { Lending number_by result out.new (export_of packets.now out.old) }
{
    let count = count_packets(packets)?;
    // Each line has three characters for each byte of its packet but two: `HEX` and a space for header and sum.
    // So a sheet has one for each byte, and twice as many again but for the packets.
    let room = out.len();
    let length = packets.len();
    let more = length - count;
    if room < length {
        return Err(Refusal::Room);
    }
    if (room - length) / 2 < more {
        return Err(Refusal::Room);
    }
    let total = length + 2 * more;
    put_lines(packets, out);
    Ok(total)
}
