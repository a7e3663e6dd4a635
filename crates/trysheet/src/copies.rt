// What a line says in copies: `room(3) times(2) len unit*len tail..`.
ghost use Rattle.std.specs.Prelude.{◌≡◌, ◌+◌, ◌*◌, ◌≤◌, length, take, nat_le};
ghost use Rattle.buffer.specs.Wrote.{Wrote};
ghost use Rattle.trysheet.specs.Copies.{copies_of, copied_of, is_copied};

use fields::{MOST_TRIPLE_ROOM, byte, is_lending, word};
use text::{first, rest};

// Room, times and len.
const FIXED: usize = 6;

// Whether so many copies of a unit and then a tail come to no more than the most.
fn fits(times: u16, len: u8, tail: usize, most: usize) -> bool
    ensures { result ≡ nat_le (times * len + tail) most }
{
    // By `as`, and not by the library's `from`: behind its call the proof has no word of the product.
    let copies = times as usize * len as usize;
    copies <= most && tail <= most - copies
}

// Whether a line is of this form, and what it says comes to no more than the most.
pub(crate) fn is_copied(args: &[u8], most: usize) -> bool
    ensures { result ≡ is_copied args.now most }
{
    if !is_lending(args, FIXED, MOST_TRIPLE_ROOM) {
        return false;
    }
    let said = rest(args, FIXED);
    let len = byte(args, 5);
    if said.len() < len as usize {
        return false;
    }
    fits(word(args, 3), len, said.len() - len as usize, most)
}

// Some bytes, from `at` on; the position behind them.
fn put_bytes(out: &mut [u8], at: usize, bytes: &[u8]) -> usize
    requires { at + length bytes.now ≤ length out.old }
    ensures { Wrote bytes.now at out.old result out.new }
{
    buffer::put(out, at, bytes);
    at + bytes.len()
}

// So many copies of a unit, from the start of `out` on; the position behind them.
fn put_copies(out: &mut [u8], times: usize, unit: &[u8]) -> usize
    requires { times * length unit.now ≤ length out.old }
    ensures { Wrote (copies_of times unit.now) 0 out.old result out.new }
{
    let mut at = 0;
    for _ in 0..times {
        at = put_bytes(out, at, unit);
    }
    at
}

// All that a line says, from the start of `out` on, which has room for it; how many bytes that is.
pub(crate) fn put_copied(args: &[u8], out: &mut [u8]) -> usize
    requires { length (copied_of args.now) ≤ length out.old }
    ensures { take result out.new ≡ copied_of args.now }
{
    let said = rest(args, FIXED);
    let len = byte(args, 5) as usize;
    let at = put_copies(out, word(args, 3) as usize, first(said, len));
    put_bytes(out, at, rest(said, len))
}
