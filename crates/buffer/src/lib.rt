// What every LDCN packet needs of bytes: the 8-bit sum that closes it, and writing into a lent buffer.
// Promised: one changed byte always breaks a sum; what is written goes where it was meant to, the rest stays, and what has no room leaves the buffer.
// Left to others: which bytes a packet has (packet, status).
#![tactic(auto)]

ghost use Rattle.std.specs.Prelude.{◌≡◌, slice_set};
ghost use Rattle.wire.specs.Numbers.{number_by};
ghost use Rattle.buffer.specs.Sum.{sum_of, ends_in_sum};
ghost use Rattle.buffer.specs.Buffer.{put_of};

use wire::Refusal;

// The 8-bit sum of bytes, wrapping past 255.
pub fn sum(s: &[u8]) -> u8
    ensures { result ≡ sum_of s.now }
{
    s.iter().fold(0, |sum, b| sum.wrapping_add(*b))
}

// Whether the last byte is the sum of those before it; not so of no bytes.
pub fn ends_in_sum(s: &[u8]) -> bool
    ensures { result ≡ ends_in_sum s.now }
{
    match s.split_last() {
        Some((last, before)) => sum(before) == *last,
        None => false,
    }
}

// Copies `src` into `out` from `at` on, if all of it has room there.
pub fn put(out: &mut [u8], at: usize, src: &[u8])
    ensures { out.new ≡ put_of out.old at src.now }
{
    if out.len() < at {
        return;
    }
    if out.len() - at < src.len() {
        return;
    }
    out[at..at + src.len()].copy_from_slice(src);
}

// Stores b, if there is room.
pub fn store(out: &mut [u8], at: usize, b: u8)
    ensures { out.new ≡ slice_set out.old at b }
{
    // Not `get_mut`: its contract doesn't say that the bytes beside the place stay.
    if at < out.len() {
        out[at] = b;
    }
}
