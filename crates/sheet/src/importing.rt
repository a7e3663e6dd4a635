// A sheet in, its packets out.
ghost use Rattle.std.specs.Prelude.{◌≡◌, ◌+◌, ◌≤◌, length};
ghost use Rattle.wire.specs.Promise.{Lending};
ghost use Rattle.buffer.specs.Wrote.{Wrote};
ghost use Rattle.text.specs.Lines.{lines_of};
ghost use Rattle.sheet.specs.declared.importing.ImportError.TheVariants.{Refused};
ghost use Rattle.sheet.specs.Sheet.{sheet_packet, packets_in, most_text, import_of, imported_number};
ghost use Rattle.sheet.specs.Reading.{import_answer, HasRoom, sheet_packets};

use crate::line::{MOST_LINE, data_count, read_line};
use text::{Lines, first};
use wire::Refusal;

// The longest sheet, 64 KiB.
pub const MOST: usize = 65536;

// Why a sheet isn't imported: refused, or refused with 14, with the number of the first line at fault, from 1.
#[derive(Clone, Copy)]
pub enum ImportError {
    Refused(Refusal),
    Line(usize),
}

impl From<Refusal> for ImportError {
    ghost from_gives = { λ why e. e ≡ Refused why };

    fn from(why: Refusal) -> ImportError {
        ImportError::Refused(why)
    }
}

// The paper's number of what importing answers.
pub fn number(imported: Result<usize, ImportError>) -> u8
    ensures { result ≡ imported_number imported }
{
    match imported {
        Ok(_) => wire::DONE,
        Err(ImportError::Refused(why)) => why.number(),
        Err(ImportError::Line(_)) => Refusal::Line.number(),
    }
}

// What importing answers, found before anything is written: one pass over the text.
fn import_answer(sheet: &[u8], room: usize) -> Result<usize, ImportError>
    requires { length sheet.now ≤ most_text }
    ensures { result ≡ import_answer (packets_in (lines_of sheet.now)) room }
{
    let mut bytes = [0; MOST_LINE];
    let mut passed = 0;
    let mut total = 0;
    for line in Lines::of(sheet) {
        match read_line(line, &mut bytes) {
            None => {
                return Err(ImportError::Line(passed + 1));
            }
            Some(_) => {
                // Header, address, command byte and sum, and as many data bytes as the command byte says.
                total += 4 + data_count(bytes[1]);
                passed += 1;
            }
        }
    }
    if room < total {
        return Err(ImportError::Refused(Refusal::Room));
    }
    Ok(total)
}

// The packet of a line's bytes, from `at` on; the position behind it.
fn put_packet(out: &mut [u8], at: usize, bytes: &[u8]) -> usize
    requires { (2 ≤ length bytes.now) × (at + (length bytes.now + 2) ≤ length out.old) }
    ensures { Wrote (sheet_packet bytes.now) at out.old result out.new }
{
    let n = bytes.len();
    out[at] = packet::HEADER;
    buffer::put(out, at + 1, bytes);
    out[at + 1 + n] = buffer::sum(bytes);
    at + (n + 2)
}

// The packets of a sheet that has no line at fault and whose packets have room.
fn put_packets(sheet: &[u8], out: &mut [u8])
    requires { (length sheet.now ≤ most_text) × HasRoom (packets_in (lines_of sheet.now)) 0 (length out.old) }
    ensures { out.new ≡ sheet_packets sheet.now out.old }
{
    let mut bytes = [0; MOST_LINE];
    let mut to = 0;
    for line in Lines::of(sheet) {
        match read_line(line, &mut bytes) {
            // It never comes to this.
            None => {
                return;
            }
            Some(n) => {
                to = put_packet(out, to, first(&bytes, n));
            }
        }
    }
}

// The packets of a sheet, back to back, at the start of `out`, whose rest stays. A refusal leaves it as it stood.
pub fn import(sheet: &[u8], out: &mut [u8]) -> Result<usize, ImportError>
    ensures { Lending imported_number result out.new (import_of sheet.now out.old) }
{
    if MOST < sheet.len() {
        return Err(ImportError::Refused(Refusal::Range));
    }
    let length = import_answer(sheet, out.len())?;
    put_packets(sheet, out);
    Ok(length)
}
