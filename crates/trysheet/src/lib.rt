// The lines of `trials` that try movement sheets: 40 imports one, 41 exports packets; 42 and 43 do so with what copies of a unit make.
// Promised: each shows what the call that it tries answers and leaves, as docs/TRIALS.md has it: all of the lent buffer, or its sums.
// Left to others: what the calls answer (sheet), and the other lines (trypacket, trychain, tryhost).
#![tactic(auto)]

mod copies;
mod sums;

ghost use Rattle.std.specs.Prelude.{◌≡◌, length};
ghost use Rattle.trysheet.specs.Trying.{import_value, export_value, summed_of, trysheet_show, import_into, export_into, import_summed, export_summed, trysheet_import, trysheet_export, import_copied, export_copied};

use copies::{is_copied, put_copied};
use fields::{
    Answer, MOST_TRIPLE_ROOM, MOST_WORD_ROOM, filled, is_lending, malformed, nothing, room, valued,
};
use sheet::ImportError;
use sums::sums_of;
use text::{first, rest};
use wire::Refusal;

// The longest text in copies: some above the 64 KiB of a sheet, so that a longer one can be tried.
const MOST_TEXT: usize = 69632;

// The most bytes of packets in copies.
const MOST_PACKETS: usize = 32768;

// How a line shows a call: with all of the lent buffer, or with its sums.
#[derive(Clone, Copy)]
enum View {
    Whole,
    Summed,
}

// The length written, the number of the line at fault, or 0.
fn import_value(done: Result<usize, ImportError>) -> usize
    ensures { result ≡ import_value done }
{
    match done {
        Ok(n) => n,
        Err(ImportError::Refused(_)) => 0,
        Err(ImportError::Line(line)) => line,
    }
}

// The length written, or 0.
fn export_value(done: Result<usize, Refusal>) -> usize
    ensures { result ≡ export_value done }
{
    done.unwrap_or(0)
}

// `NN value(3) SUMS`.
fn summed(number: u8, value: usize, lent: &[u8]) -> Answer
    ensures { result ≡ summed_of number value lent.now }
{
    let sums = sums_of(lent);
    nothing()
        .put(number)
        .put_triple(value)
        .put_word(sums.a)
        .put_word(sums.b)
}

// What a call is shown as, by its number and value and what it left in the buffer.
fn show(view: View, number: u8, value: usize, lent: &[u8]) -> Answer
    ensures { result ≡ trysheet_show view number value lent.now }
{
    match view {
        View::Whole => valued(number, value, lent),
        View::Summed => summed(number, value, lent),
    }
}

// Imports a sheet into what a line lends.
fn import_into(view: View, sheet: &[u8], lent: &mut [u8]) -> Answer
    ensures { result ≡ import_into view sheet.now lent.old }
{
    let done = sheet::import(sheet, lent);
    show(view, sheet::number(done), import_value(done), lent)
}

// Exports packets into what a line lends.
fn export_into(view: View, packets: &[u8], lent: &mut [u8]) -> Answer
    ensures { result ≡ export_into view packets.now lent.old }
{
    let done = sheet::export(packets, lent);
    show(view, wire::number(done), export_value(done), lent)
}

// `room(2) text..`: `NN value(2) buffer`.
pub fn import(args: &[u8]) -> Answer
    ensures { result ≡ trysheet_import args.now }
{
    if is_lending(args, 2, MOST_WORD_ROOM) {
        let mut buffer = filled::<MOST_WORD_ROOM>();
        let room = room(args, MOST_WORD_ROOM);
        return import_into(View::Whole, rest(args, 2), &mut buffer[0..room]);
    }
    malformed()
}

// `room(2) packets..`: `NN value(2) buffer`.
pub fn export(args: &[u8]) -> Answer
    ensures { result ≡ trysheet_export args.now }
{
    if is_lending(args, 2, MOST_WORD_ROOM) {
        let mut buffer = filled::<MOST_WORD_ROOM>();
        let room = room(args, MOST_WORD_ROOM);
        return export_into(View::Whole, rest(args, 2), &mut buffer[0..room]);
    }
    malformed()
}

// Imports a sheet with a room of three bytes.
fn import_summed(args: &[u8], sheet: &[u8]) -> Answer
    ensures { result ≡ import_summed args.now sheet.now }
{
    let mut buffer = filled::<MOST_TRIPLE_ROOM>();
    let room = room(args, MOST_TRIPLE_ROOM);
    import_into(View::Summed, sheet, &mut buffer[0..room])
}

// Exports packets with a room of three bytes.
fn export_summed(args: &[u8], packets: &[u8]) -> Answer
    ensures { result ≡ export_summed args.now packets.now }
{
    let mut buffer = filled::<MOST_TRIPLE_ROOM>();
    let room = room(args, MOST_TRIPLE_ROOM);
    export_into(View::Summed, packets, &mut buffer[0..room])
}

// `room(3) times(2) len unit*len tail..`: `NN value(3) SUMS`.
pub fn import_copied(args: &[u8]) -> Answer
    ensures { result ≡ import_copied args.now }
{
    if is_copied(args, MOST_TEXT) {
        let mut text = reading::room::<MOST_TEXT>();
        let n = put_copied(args, &mut text);
        return import_summed(args, first(&text, n));
    }
    malformed()
}

// The same, with packets.
pub fn export_copied(args: &[u8]) -> Answer
    ensures { result ≡ export_copied args.now }
{
    if is_copied(args, MOST_PACKETS) {
        let mut packets = reading::room::<MOST_TEXT>();
        let n = put_copied(args, &mut packets);
        return export_summed(args, first(&packets, n));
    }
    malformed()
}
