// A command read from a packet's command nibble and data bytes: for one kind of node, and for both in one look.
ghost use Rattle.std.specs.Prelude.{◌≡◌, ◌%◌, ◌/◌, [], ◌∷◌, get_or, Some, None};
ghost use Rattle.buffer.specs.Wide.{word_of, long_of};
ghost use Rattle.codec.specs.Reading.{word_at, long_if, byte_if, load_count, motion_of, gains_of, ranged, codec_read, readings_of};
ghost use Rattle.codec.specs.Looking.{alike_of, placing_of, loading_of, gaining_of, stopping_of, listed_of, wide_rows};

use command::{Command, Gains, Held, Loads, Motion, Place, Pwm, Stop};
use wire::{Group, Individual, Kind};

// What a packet says to each kind of node.
#[derive(Clone, Copy)]
pub struct Readings {
    pub gate: Option<Command>,
    pub drive: Option<Command>,
}

// The number of two bytes, least significant first.
fn word(low: u8, high: u8) -> u16
    ensures { result ≡ word_of low high }
{
    u16::from_le_bytes([low, high])
}

// The number of four.
fn long(one: u8, two: u8, three: u8, four: u8) -> u32
    ensures { result ≡ long_of one two three four }
{
    u32::from_le_bytes([one, two, three, four])
}

// The data byte at a position.
pub(crate) fn byte(bytes: &[u8], at: usize) -> u8
    ensures { result ≡ get_or bytes.now at 0 }
{
    bytes.get(at).copied().unwrap_or(0)
}

// The word from a position on.
fn word_at(bytes: &[u8], at: u8) -> u16
    ensures { result ≡ word_at bytes.now at }
{
    let i = at as usize;
    word(byte(bytes, i), byte(bytes, i + 1))
}

// The value of four bytes from a position on, if it is brought.
pub(crate) fn long_if(brought: bool, bytes: &[u8], at: u8) -> u32
    ensures { result ≡ long_if brought bytes.now at }
{
    if brought {
        let i = at as usize;
        return long(
            byte(bytes, i),
            byte(bytes, i + 1),
            byte(bytes, i + 2),
            byte(bytes, i + 3),
        );
    }
    0
}

// The byte at a position, if it is brought.
fn byte_if(brought: bool, bytes: &[u8], at: u8) -> u8
    ensures { result ≡ byte_if brought bytes.now at }
{
    if brought {
        return byte(bytes, at as usize);
    }
    0
}

// A command, if its values are of their ranges; else another one.
fn ranged(c: Command) -> Option<Command>
    ensures { result ≡ ranged c }
{
    if c.fits() {
        return Some(c);
    }
    None
}

// Set Address, of its two data bytes: any second byte gives a group.
fn placing(address: u8, group: u8) -> Option<Command>
    ensures { result ≡ placing_of address group }
{
    if 0x80 <= address {
        return None;
    }
    Some(Command::SetAddress(Place {
        address: Individual(address),
        group: Group(group % 0x80 + 0x80),
        leader: group < 0x80,
    }))
}

// How many data bytes a load has, by its control byte.
pub(crate) fn load_count(control: u8) -> u8
    ensures { result ≡ load_count control }
{
    1 + control % 2 * 4 + control / 2 % 2 * 4 + control / 4 % 2 * 4 + control / 8 % 2
}

// What a load's data bytes bring.
pub(crate) fn motion_of(bytes: &[u8]) -> Motion
    ensures { result ≡ motion_of bytes.now }
{
    let control = byte(bytes, 0);
    let brought = Loads::of(control);
    let second = 1 + control % 2 * 4;
    let third = second + control / 2 % 2 * 4;
    let fourth = third + control / 4 % 2 * 4;
    Motion {
        position: long_if(brought.position, bytes, 1),
        velocity: long_if(brought.velocity, bytes, second),
        acceleration: long_if(brought.acceleration, bytes, third),
        control,
        pwm: byte_if(brought.pwm, bytes, fourth),
    }
}

// Load Trajectory of so many data bytes.
fn loading(count: u8, bytes: &[u8]) -> Option<Command>
    ensures { result ≡ loading_of count bytes.now }
{
    if count != load_count(byte(bytes, 0)) {
        return None;
    }
    ranged(Command::LoadTrajectory(motion_of(bytes)))
}

// Load Trajectory of two data bytes, which a gate reads as Set PWM: only a PWM value is brought, else it is none.
fn loading_two(bytes: &[u8]) -> Option<Command>
    ensures { result ≡ loading_of 2 bytes.now }
{
    if byte(bytes, 0) % 16 != 8 {
        return None;
    }
    loading(2, bytes)
}

// What the data bytes of Set Gain bring.
pub(crate) fn gains_of(bytes: &[u8]) -> Gains
    ensures { result ≡ gains_of bytes.now }
{
    Gains {
        kp: word_at(bytes, 0),
        kd: word_at(bytes, 2),
        ki: word_at(bytes, 4),
        il: word_at(bytes, 6),
        el: word_at(bytes, 10),
        ol: byte(bytes, 8),
        sr: byte(bytes, 12),
        db: byte(bytes, 13),
    }
}

// Set Gain of so many data bytes.
fn gaining(count: u8, bytes: &[u8]) -> Option<Command>
    ensures { result ≡ gaining_of count bytes.now }
{
    if count != 14 {
        return None;
    }
    if byte(bytes, 9) != 0 {
        return None;
    }
    ranged(Command::SetGain(gains_of(bytes)))
}

// Stop Motor of so many data bytes.
fn stopping(count: u8, bytes: &[u8]) -> Option<Command>
    ensures { result ≡ stopping_of count bytes.now }
{
    let stop = byte(bytes, 0);
    if count != 1 + stop / 16 % 2 * 4 {
        return None;
    }
    ranged(Command::StopMotor(Stop {
        position: long_if(command::is_stop_here(stop), bytes, 1),
        byte: stop,
    }))
}

// A drive's commands that have data bytes: apart, so that what is said to gates doesn't wait for them.
fn wide_rows(head: u8, bytes: &[u8]) -> Option<Command>
    ensures { result ≡ wide_rows (head % 16) (head / 16) bytes.now }
{
    match head % 16 {
        0x4 => loading(head / 16, bytes),
        0x6 => gaining(head / 16, bytes),
        0x7 => stopping(head / 16, bytes),
        _ => None,
    }
}

// A command of both kinds, read alike.
fn alike(r: Option<Command>) -> Readings
    ensures { result ≡ alike_of r }
{
    Readings { gate: r, drive: r }
}

// A gate's own.
fn for_gate(c: Command) -> Readings
    ensures { result ≡ record { gate = Some c; drive = None } }
{
    Readings {
        gate: Some(c),
        drive: None,
    }
}

// A drive's own.
fn for_drive(r: Option<Command>) -> Readings
    ensures { result ≡ record { gate = None; drive = r } }
{
    Readings {
        gate: None,
        drive: r,
    }
}

// What a command byte, count and command as the manuals list them, and the data bytes say, the first four at hand: both kinds in one look.
fn listed(head: u8, one: u8, two: u8, three: u8, four: u8, bytes: &[u8]) -> Readings
    ensures { result ≡ listed_of (head % 16) (head / 16) (one ∷ two ∷ three ∷ four ∷ []) bytes.now }
{
    match head {
        0x21 => alike(placing(one, two)),
        0x12 => alike(Some(Command::DefineStatus(one))),
        0x13 => alike(Some(Command::ReadStatus(one))),
        0x1A => alike(Some(Command::SetBaudRate(one))),
        0x0E => alike(Some(Command::Nop)),
        0x0F => alike(Some(Command::HardReset)),
        0x24 => Readings {
            gate: Some(Command::SetPwm(Pwm {
                first: one,
                second: two,
            })),
            drive: loading_two(bytes),
        },
        0x05 => Readings {
            gate: Some(Command::SynchOutput),
            drive: Some(Command::StartMotion),
        },
        0x26 => for_gate(Command::SetOutputs(word(one, two))),
        0x47 => for_gate(Command::SetSynchOutput(Held {
            outputs: word(one, two),
            pwm: Pwm {
                first: three,
                second: four,
            },
        })),
        0x18 => for_gate(Command::SetTimerMode(one)),
        0x0C => for_gate(Command::SynchInput),
        0x00 => for_drive(Some(Command::ResetPosition)),
        _ => for_drive(wide_rows(head, bytes)),
    }
}

impl Readings {
    // What a packet's command nibble and data bytes say.
    pub fn of(command: u8, bytes: &[u8]) -> Readings
        ensures { result ≡ readings_of command bytes.now }
    {
        if 15 < command {
            return alike(None);
        }
        if 15 < bytes.len() {
            return alike(None);
        }
        let head = command + (bytes.len() as u8) * 16;
        listed(
            head,
            byte(bytes, 0),
            byte(bytes, 1),
            byte(bytes, 2),
            byte(bytes, 3),
            bytes,
        )
    }
}

// What they say to one kind.
pub fn read(kind: Kind, command: u8, bytes: &[u8]) -> Option<Command>
    ensures { result ≡ codec_read kind command bytes.now }
{
    let both = Readings::of(command, bytes);
    match kind {
        Kind::Gate => both.gate,
        Kind::Drive => both.drive,
    }
}
