// The packet of a command, built into a lent buffer.
ghost use Rattle.std.specs.Prelude.{◌≡◌, ◌∷◌, ◌++◌, take};
ghost use Rattle.wire.specs.Numbers.{number_by};
ghost use Rattle.wire.specs.Promise.{Lending};
ghost use Rattle.buffer.specs.Buffer.{written};
ghost use Rattle.codec.specs.Build.{group_byte, bytes_if, long_bytes, load_data, gain_data, stop_data, own_data, packet_to, codec_build};
ghost use Rattle.codec.specs.Filling.{command_head, filled, four_data, word_data, byte_data};

use crate::reading::load_count;
use command::{Command, Gains, Loads, Motion, Place, Stop};
use wire::{Address, Refusal};

// The second data byte of Set Address: the group, with bit 7 clear for a leader.
fn group_byte(p: Place) -> u8
    ensures { result ≡ group_byte p }
{
    let low = p.group.0 % 0x80;
    if p.leader { low } else { low + 0x80 }
}

// The command byte: how many data bytes, and the command.
fn command_head(c: Command) -> u8
    ensures { result ≡ command_head c }
{
    match c {
        Command::SetAddress(_) => 0x21,
        Command::DefineStatus(_) => 0x12,
        Command::ReadStatus(_) => 0x13,
        Command::SetPwm(_) => 0x24,
        Command::SynchOutput => 0x05,
        Command::SetOutputs(_) => 0x26,
        Command::SetSynchOutput(_) => 0x47,
        Command::SetTimerMode(_) => 0x18,
        Command::SetBaudRate(_) => 0x1A,
        Command::SynchInput => 0x0C,
        Command::Nop => 0x0E,
        Command::HardReset => 0x0F,
        Command::ResetPosition => 0x00,
        Command::LoadTrajectory(m) => 0x04 + load_count(m.control) * 16,
        Command::StartMotion => 0x05,
        Command::SetGain(_) => 0xE6,
        Command::StopMotor(s) => 0x17 + s.byte / 16 % 2 * 64,
    }
}

// Up to four data bytes, and zeros behind them.
fn four_data(one: u8, two: u8, three: u8, four: u8) -> [u8; 14]
    ensures { result ≡ four_data one two three four }
{
    [one, two, three, four, 0, 0, 0, 0, 0, 0, 0, 0, 0, 0]
}

// A word's two bytes, least significant first, and two more.
fn word_data(w: u16, third: u8, fourth: u8) -> [u8; 14]
    ensures { result ≡ word_data w third fourth }
{
    let [low, high] = w.to_le_bytes();
    four_data(low, high, third, fourth)
}

// A byte, if it is brought.
fn byte_data(brought: bool, b: u8) -> [u8; 14]
    ensures { result ≡ byte_data brought b }
{
    if brought {
        return four_data(b, 0, 0, 0);
    }
    [0; 14]
}

// The four bytes of a value, least significant first.
fn long_bytes(v: u32) -> [u8; 4]
    ensures { result ≡ long_bytes v }
{
    v.to_le_bytes()
}

// The bytes of a value, if it is brought, before others; what the last ones leave is cut off.
fn long_then(brought: bool, v: u32, others: [u8; 14]) -> [u8; 14]
    ensures { result ≡ take 14 (bytes_if brought (long_bytes v) ++ others) }
{
    if brought {
        let mut data = [0; 14];
        buffer::put(&mut data, 0, &long_bytes(v));
        buffer::put(&mut data, 4, &others[..10]);
        return data;
    }
    others
}

// A byte before others.
fn byte_then(b: u8, others: [u8; 14]) -> [u8; 14]
    ensures { result ≡ take 14 (b ∷ others) }
{
    let mut data = [b; 14];
    buffer::put(&mut data, 1, &others[..13]);
    data
}

// The data bytes of a load: the control byte, and what it brings.
fn load_data(m: Motion) -> [u8; 14]
    ensures { result ≡ filled (load_data m) }
{
    let brought = Loads::of(m.control);
    let pwm = byte_data(brought.pwm, m.pwm);
    let acceleration = long_then(brought.acceleration, m.acceleration, pwm);
    let velocity = long_then(brought.velocity, m.velocity, acceleration);
    let position = long_then(brought.position, m.position, velocity);
    byte_then(m.control, position)
}

// The data bytes of Set Gain.
fn gain_data(g: Gains) -> [u8; 14]
    ensures { result ≡ filled (gain_data g) }
{
    let kp = g.kp.to_le_bytes();
    let kd = g.kd.to_le_bytes();
    let ki = g.ki.to_le_bytes();
    let il = g.il.to_le_bytes();
    let el = g.el.to_le_bytes();
    [
        kp[0], kp[1], kd[0], kd[1], ki[0], ki[1], il[0], il[1], g.ol, 0, el[0], el[1], g.sr, g.db,
    ]
}

// The data bytes of Stop Motor: the stop byte, and the position that it brings.
fn stop_data(s: Stop) -> [u8; 14]
    ensures { result ≡ filled (stop_data s) }
{
    let position = long_then(command::is_stop_here(s.byte), s.position, [0; 14]);
    byte_then(s.byte, position)
}

// A command's own data, and zeros behind it.
fn own_data(c: Command) -> [u8; 14]
    ensures { result ≡ filled (own_data c) }
{
    match c {
        Command::SetAddress(p) => four_data(p.address.0, group_byte(p), 0, 0),
        Command::DefineStatus(mask) | Command::ReadStatus(mask) => four_data(mask, 0, 0, 0),
        Command::SetPwm(w) => four_data(w.first, w.second, 0, 0),
        Command::SetOutputs(w) => word_data(w, 0, 0),
        Command::SetSynchOutput(h) => word_data(h.outputs, h.pwm.first, h.pwm.second),
        Command::SetTimerMode(mode) => four_data(mode, 0, 0, 0),
        Command::SetBaudRate(divisor) => four_data(divisor, 0, 0, 0),
        Command::LoadTrajectory(m) => load_data(m),
        Command::SetGain(g) => gain_data(g),
        Command::StopMotor(s) => stop_data(s),
        Command::SynchOutput
        | Command::SynchInput
        | Command::Nop
        | Command::HardReset
        | Command::ResetPosition
        | Command::StartMotion => [0; 14],
    }
}

// The packet of a command, to the address byte `a`, whatever its values: 5 where it has no room.
pub fn put_packet_to(a: u8, c: Command, out: &mut [u8]) -> Result<usize, Refusal>
    ensures { Lending number_by result out.new (written (packet_to a c) out.old) }
{
    let command_byte = command_head(c);
    let bytes = own_data(c);
    let count = (command_byte / 16) as usize;
    packet::build(a, command_byte % 16, &bytes[..count], out)
}

// Builds the packet of a command at the start of `out`, whose rest stays. 6 where the address or the command is not of its range, then 5.
pub fn build(to: Address, c: Command, out: &mut [u8]) -> Result<usize, Refusal>
    ensures { Lending number_by result out.new (codec_build to c out.old) }
{
    if to.in_range() {
        if c.fits() {
            return put_packet_to(to.byte(), c, out);
        }
    }
    Err(Refusal::Range)
}
