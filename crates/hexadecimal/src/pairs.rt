// Reading a line of bytes: two-digit capitals, single spaces.
ghost use Rattle.std.specs.Prelude.{◌≡◌};
ghost use Rattle.wire.specs.Promise.{Lending};
ghost use Rattle.hexadecimal.specs.Hex.{pair_by, read_pair, packet_in, bytes_in, read_bytes, parsed_number};
ghost use Rattle.hexadecimal.specs.Gathering.{gathered, read_pairs};

use crate::digits::digit;
use buffer::store;
use text::rest;

// Between two bytes.
pub const SPACE: u8 = 32;

// What a line starts with: two digits and its end, or two digits and a space.
#[derive(Clone, Copy)]
pub(crate) enum Pair {
    Last(u8),
    More(u8),
}

// s starts with two digits of these values.
#[tactic(auto, unfolding(crate::specs::Hex::pair_by))]
fn pair_by(high: u8, low: u8, s: &[u8]) -> Option<Pair>
    ensures { result ≡ pair_by high low s.now }
{
    if 15 < high || 15 < low {
        return None;
    }
    let value = high * 16 + low;
    if s.len() < 3 {
        return Some(Pair::Last(value));
    }
    if s[2] != SPACE {
        return None;
    }
    Some(Pair::More(value))
}

#[tactic(auto, using(crate::proofs::Pairing::pair_by_lem), unfolding(crate::specs::Hex::read_pair))]
fn read_pair(s: &[u8]) -> Option<Pair>
    ensures { result ≡ read_pair s.now }
{
    if s.len() < 2 {
        return None;
    }
    let high = digit(s[0]);
    let low = digit(s[1]);
    pair_by(high, low, s)
}

// The bytes of a line that isn't empty go to the start of `out`, as many as it has room for.
fn read_pairs(line: &[u8], out: &mut [u8]) -> Option<usize>
    ensures { gathered result out.new ≡ read_pairs (packet_in line.now) 0 out.old }
{
    let mut at = 0;
    let mut count = 0;
    // No iterator: that a space follows a pair says that one more must come, so the last pair is known by its own reading.
    loop {
        match read_pair(rest(line, at))? {
            Pair::Last(b) => {
                store(out, count, b);
                return Some(count + 1);
            }
            Pair::More(b) => {
                store(out, count, b);
                count += 1;
                at += 3;
            }
        }
    }
}

// The bytes of a line go to the start of `out`, as many as it has room for; the rest of it stays.
// The line is read through first, so that a malformed one leaves `out` as it stood.
pub fn read_bytes(line: &[u8], out: &mut [u8]) -> Option<usize>
    ensures { Lending parsed_number result out.new (read_bytes (bytes_in line.now) out.old) }
{
    if line.len() < 1 {
        return Some(0);
    }
    let mut none = [0; 1];
    read_pairs(line, &mut none)?;
    read_pairs(line, out)
}
