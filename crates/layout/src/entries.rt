// ENTRY: KIND, divisor, place (3), mask, what the kind has of its own (a gate 9, a drive 42), known (a gate 1, a drive 2).
ghost use Rattle.std.specs.Prelude.{◌≡◌, cond, ◌≤◌};
ghost use Rattle.layout.specs.Entries.{entry_length, is_entry, are_entries, gate_known, motion_known, drive_known, read_known, bits_in, read_entry, read_entries};
ghost use Rattle.layout.specs.Entries.{gate_bits, motion_bits, drive_bits, shared_bits, put_known, put_entry, put_entries};

use crate::settings::{put_place, put_settings, read_place, read_settings};
use entry::{DriveKnown, Entry, GateKnown, Known, MotionKnown};
use fields::{Answer, byte, is_kind, read_kind, word};
use text::rest;
use wire::Kind;

// How many bytes an entry has, by its kind.
const GATE_ENTRY: usize = 16;

const DRIVE_ENTRY: usize = 50;

// How many entries a session has.
const ENTRIES: usize = wire::MOST_NODES;

// How many bytes the entry at the start of s has.
fn entry_length(s: &[u8]) -> usize
    ensures value { result ≡ entry_length s.now }
    ensures some { 1 ≤ result }
    ensures within { result ≤ 50 }
{
    match read_kind(byte(s, 0)) {
        Kind::Gate => GATE_ENTRY,
        Kind::Drive => DRIVE_ENTRY,
    }
}

// Whether s starts with an entry: its kind is one, all of it is there, leader is a flag, and the highest bit of known is 0.
fn is_entry(s: &[u8]) -> bool
    ensures { result ≡ is_entry s.now }
{
    let n = entry_length(s);
    is_kind(byte(s, 0)) && n <= s.len() && byte(s, 4) < 2 && byte(s, n - 1) < 128
}

// Whether s is the 31 entries of a session.
pub fn are_entries(s: &[u8]) -> bool
    ensures { result ≡ are_entries s.now }
{
    let mut at = 0;
    for _ in 0..ENTRIES {
        let entry = rest(s, at);
        if !is_entry(entry) {
            return false;
        }
        at += entry_length(entry);
    }
    at == s.len()
}

// Bits 0 to 3: outputs, PWM pair, held set, timer mode.
fn gate_known(bits: u16) -> GateKnown
    ensures { result ≡ gate_known bits }
{
    GateKnown {
        outputs: bits % 2 == 1,
        pwm: bits / 2 % 2 == 1,
        held: bits / 4 % 2 == 1,
        timer: bits / 8 % 2 == 1,
    }
}

// Bits 0 to 4: control byte, position, velocity, acceleration, PWM value.
fn motion_known(bits: u16) -> MotionKnown
    ensures { result ≡ motion_known bits }
{
    MotionKnown {
        control: bits % 2 == 1,
        position: bits / 2 % 2 == 1,
        velocity: bits / 4 % 2 == 1,
        acceleration: bits / 8 % 2 == 1,
        pwm: bits / 16 % 2 == 1,
    }
}

// Bits 0 and 1: gains, stop byte; then five of what waits, and five of what is in force.
fn drive_known(bits: u16) -> DriveKnown
    ensures { result ≡ drive_known bits }
{
    DriveKnown {
        gains: bits % 2 == 1,
        stop: bits / 2 % 2 == 1,
        waiting: motion_known(bits / 4),
        in_force: motion_known(bits / 128),
    }
}

// Bits 0 and 1: place, mask; then what the kind has of its own; then the divisor. What it has none of is known.
fn read_known(kind: Kind, bits: u16) -> Known
    ensures { result ≡ read_known kind bits }
{
    let known = Known {
        place: bits % 2 == 1,
        mask: bits / 2 % 2 == 1,
        ..Entry::power_up(kind).known
    };
    match kind {
        Kind::Gate => Known {
            divisor: bits / 64 % 2 == 1,
            gate: gate_known(bits / 4),
            ..known
        },
        Kind::Drive => Known {
            divisor: bits / 16384 % 2 == 1,
            drive: drive_known(bits / 4),
            ..known
        },
    }
}

// The bits of known, in an entry of that kind.
fn bits_in(kind: Kind, s: &[u8]) -> u16
    ensures { result ≡ bits_in kind s.now }
{
    match kind {
        Kind::Gate => u16::from(byte(s, 15)),
        Kind::Drive => word(s, 48),
    }
}

// The entry at the start of s.
fn read_entry(s: &[u8]) -> Entry
    ensures { result ≡ read_entry s.now }
{
    let kind = read_kind(byte(s, 0));
    let settings = read_settings(kind, byte(s, 1), read_place(rest(s, 2)), rest(s, 5));
    let known = read_known(kind, bits_in(kind, s));
    Entry {
        settings,
        known,
        kind,
    }
}

// The 31 entries of s.
pub fn read_entries(s: &[u8]) -> [Entry; ENTRIES]
    ensures { result ≡ read_entries s.now }
{
    let mut entries = [read_entry(s); ENTRIES];
    let mut at = 0;
    for entry in entries.iter_mut() {
        let record = rest(s, at);
        *entry = read_entry(record);
        at += entry_length(record);
    }
    entries
}

// A bit of this value, if set.
fn bit(set: bool, value: u8) -> u8
    ensures value { result ≡ cond set value 0 }
    ensures within { result ≤ value }
{
    if set { value } else { 0 }
}

// The bits of what is known of a gate's own.
fn gate_bits(k: GateKnown) -> u8
    ensures value { result ≡ gate_bits k }
    ensures within { result ≤ 15 }
{
    bit(k.outputs, 1) + bit(k.pwm, 2) + bit(k.held, 4) + bit(k.timer, 8)
}

// Of a motion's values.
fn motion_bits(k: MotionKnown) -> u8
    ensures value { result ≡ motion_bits k }
    ensures within { result ≤ 31 }
{
    bit(k.control, 1)
        + bit(k.position, 2)
        + bit(k.velocity, 4)
        + bit(k.acceleration, 8)
        + bit(k.pwm, 16)
}

// Of a drive's own.
fn drive_bits(k: DriveKnown) -> u16
    ensures value { result ≡ drive_bits k }
    ensures within { result ≤ 4095 }
{
    let low = bit(k.gains, 1) + bit(k.stop, 2);
    let waiting = motion_bits(k.waiting);
    let in_force = motion_bits(k.in_force);
    u16::from(low) + u16::from(waiting) * 4 + u16::from(in_force) * 128
}

// Of place and mask, which both kinds have in the same bits.
fn shared_bits(k: Known) -> u8
    ensures value { result ≡ shared_bits k }
    ensures within { result ≤ 3 }
{
    bit(k.place, 1) + bit(k.mask, 2)
}

// With the bits of what is known more, by the kind: the divisor's is bit 6 of the last byte.
fn put_known(a: Answer, kind: Kind, k: Known) -> Answer
    ensures { result ≡ put_known a kind k }
{
    let low = shared_bits(k);
    let pace = bit(k.divisor, 64);
    match kind {
        Kind::Gate => a.put(low + gate_bits(k.gate) * 4 + pace),
        Kind::Drive => a.put_word(u16::from(low) + drive_bits(k.drive) * 4 + u16::from(pace) * 256),
    }
}

// With an entry more.
fn put_entry(a: Answer, e: Entry) -> Answer
    ensures { result ≡ put_entry a e }
{
    let a = put_place(a.put_kind(e.kind).put(e.settings.divisor), e.settings.place);
    put_known(put_settings(a, e.kind, e.settings), e.kind, e.known)
}

// With ENTRY*31 more.
pub fn put_entries(a: Answer, entries: [Entry; ENTRIES]) -> Answer
    ensures { result ≡ put_entries a entries }
{
    // By `for`, as in `Answer::put_all`.
    let mut all = a;
    for e in &entries {
        all = put_entry(all, *e);
    }
    all
}
