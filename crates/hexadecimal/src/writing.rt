// Writing a line of bytes: two-digit capitals, single spaces.
ghost use Rattle.std.specs.Prelude.{◌≡◌, [], ◌∷◌, ◌+◌, ◌*◌, ◌≤◌, length};
ghost use Rattle.wire.specs.Numbers.{number_by};
ghost use Rattle.std.proofs.lemmas.List.Edits.{sets};
ghost use Rattle.wire.specs.Promise.{Lending};
ghost use Rattle.buffer.specs.Buffer.{written};
ghost use Rattle.hexadecimal.specs.Hex.{hex_pair, hex_rest, hex_line};

use crate::digits::character;
use crate::pairs::SPACE;
use text::{NEWLINE, rest};
use wire::Refusal;

// Two digits.
fn put_pair(out: &mut [u8], at: usize, b: u8)
    requires { at + 2 ≤ length out.old }
    ensures { out.new ≡ sets out.old at (hex_pair b) }
{
    let high = character(b / 16);
    let low = character(b % 16);
    out[at] = high;
    out[at + 1] = low;
}

// A space and two digits.
fn put_next(out: &mut [u8], at: usize, b: u8)
    requires { at + 3 ≤ length out.old }
    ensures { out.new ≡ sets out.old at (32 ∷ hex_pair b) }
{
    out[at] = SPACE;
    put_pair(out, at + 1, b);
}

// A space and two digits for each byte.
fn put_rest(out: &mut [u8], at: usize, bytes: &[u8])
    requires { at + 3 * length bytes.now ≤ length out.old }
    ensures { out.new ≡ sets out.old at (hex_rest bytes.now) }
{
    for (i, b) in bytes.iter().enumerate() {
        put_next(out, at + 3 * i, *b);
    }
}

// A line of no bytes.
fn write_empty(out: &mut [u8]) -> Result<usize, Refusal>
    ensures { Lending number_by result out.new (written (10 ∷ []) out.old) }
{
    if out.len() < 1 {
        return Err(Refusal::Room);
    }
    out[0] = NEWLINE;
    Ok(1)
}

// The bytes as a line with its newline, at the start of `out`, whose rest stays.
pub fn write_line(bytes: &[u8], out: &mut [u8]) -> Result<usize, Refusal>
    ensures { Lending number_by result out.new (written (hex_line bytes.now) out.old) }
{
    let n = bytes.len();
    if n < 1 {
        return write_empty(out);
    }
    if out.len() / 3 < n {
        return Err(Refusal::Room);
    }
    put_pair(out, 0, bytes[0]);
    put_rest(out, 2, rest(bytes, 1));
    out[3 * n - 1] = NEWLINE;
    Ok(3 * n)
}
