// A line of a sheet: `HEX`, then address, command byte and data bytes, each of one or two hex digits.
ghost use Rattle.std.specs.Prelude.{◌≡◌, ◌/◌, ◌≤◌, ◌<◌};
ghost use Rattle.hexadecimal.specs.Gathering.{gathered};
ghost use Rattle.sheet.specs.Line.{starts_hex, either_digit};
ghost use Rattle.sheet.specs.Reading.{two_numeral, numeral_by, read_numeral, read_numerals, counted_by, read_counted, read_line};

use buffer::store;
use hexadecimal::SPACE;
use text::rest;

// The most bytes of a line: address, command byte, 15 data bytes.
pub(crate) const MOST_LINE: usize = 17;

// What some text starts with: one or two digits and the line's end, or one or two digits and a space, which are so many characters.
#[derive(Clone, Copy)]
pub(crate) enum Numeral {
    Last(u8),
    More(u8, u8),
}

// Whether a line begins with the word and a space.
fn starts_hex(line: &[u8]) -> bool
    ensures { result ≡ starts_hex line.now }
{
    line.starts_with(b"HEX ")
}

// The value of a hex digit of either case; 16 where b is none.
// A digit of any kind fails these tests alike: which kind comes next can't be guessed, and a wrong guess costs a processor more than all of them (docs/PERFORMANCE.md).
fn either_digit(b: u8) -> u8
    ensures { result ≡ either_digit b }
{
    if b < 48 {
        return 16;
    }
    if (57 < b) & (b < 65) {
        return 16;
    }
    if (70 < b) & (b < 97) {
        return 16;
    }
    if 102 < b {
        return 16;
    }
    // The low four bits; nine more for a letter, which is 64 or above.
    b % 16 + 9 * (b / 64)
}

// s starts with two digits of these values.
#[tactic(auto, unfolding(crate::specs::Reading::two_numeral))]
fn two_numeral(high: u8, low: u8, s: &[u8]) -> Option<Numeral>
    requires { high < 16 }
    ensures { result ≡ two_numeral high low s.now }
{
    if 15 < low {
        return None;
    }
    let value = high * 16 + low;
    if s.len() < 3 {
        return Some(Numeral::Last(value));
    }
    if s[2] != SPACE {
        return None;
    }
    Some(Numeral::More(value, 3))
}

// s starts with a digit of this value.
#[tactic(auto, unfolding(crate::specs::Reading::numeral_by))]
fn numeral_by(high: u8, s: &[u8]) -> Option<Numeral>
    ensures { result ≡ numeral_by high s.now }
{
    if 15 < high {
        return None;
    }
    if s.len() < 2 {
        return Some(Numeral::Last(high));
    }
    if s[1] == SPACE {
        return Some(Numeral::More(high, 2));
    }
    let low = either_digit(s[1]);
    two_numeral(high, low, s)
}

#[tactic(auto, unfolding(crate::specs::Reading::read_numeral))]
fn read_numeral(s: &[u8]) -> Option<Numeral>
    ensures { result ≡ read_numeral s.now }
{
    if s.len() < 1 {
        return None;
    }
    let high = either_digit(s[0]);
    numeral_by(high, s)
}

// The bytes that numerals say go to the start of `out`, as many as it has room for.
fn read_numerals(s: &[u8], out: &mut [u8]) -> Option<usize>
    ensures { gathered result out.new ≡ read_numerals s.now out.old }
{
    let mut at = 0;
    let mut count = 0;
    // No iterator: that a space follows a numeral says that one more must come, so the last numeral is known by its own reading.
    loop {
        match read_numeral(rest(s, at))? {
            Numeral::Last(b) => {
                store(out, count, b);
                return Some(count + 1);
            }
            Numeral::More(b, n) => {
                store(out, count, b);
                count += 1;
                at += n as usize;
            }
        }
    }
}

// How many data bytes a command byte says there are.
pub(crate) fn data_count(head: u8) -> usize
    ensures { (result ≡ head / 16) × (result ≤ 15) }
{
    (head / 16) as usize
}

// So many bytes, the second of them this command byte: whether the data bytes number what it says.
fn counted_by(n: usize, head: u8) -> Option<usize>
    ensures { result ≡ counted_by n head }
{
    if n == 2 + data_count(head) {
        Some(n)
    } else {
        None
    }
}

// The bytes that numerals say, if they are as many as they must be. Of more than `out` has room for the count is never right.
fn read_counted(s: &[u8], out: &mut [u8; MOST_LINE]) -> Option<usize>
    ensures { gathered result out.new ≡ read_counted s.now out.old }
{
    let n = read_numerals(s, out)?;
    counted_by(n, out[1])
}

// The bytes of a line go to the start of `out`.
pub(crate) fn read_line(line: &[u8], out: &mut [u8; MOST_LINE]) -> Option<usize>
    ensures { gathered result out.new ≡ read_line line.now out.old }
{
    if starts_hex(line) {
        return read_counted(rest(line, 4), out);
    }
    None
}
