// A drive's own commands by number and data bytes, whatever their values: for whoever is to look at the ranges himself, as a call of the host does.
ghost use Rattle.std.specs.Prelude.{◌≡◌};
ghost use Rattle.codec.specs.Own.{own_plain, own_load, own_gain, own_stop, drive_own};

use crate::reading::{byte, gains_of, load_count, long_if, motion_of};
use command::{Command, Stop};

// One without data bytes.
fn own_plain(c: Command, bytes: &[u8]) -> Option<Command>
    ensures { result ≡ own_plain c bytes.now }
{
    if bytes.len() != 0 {
        return None;
    }
    Some(c)
}

// Load Trajectory.
fn own_load(bytes: &[u8]) -> Option<Command>
    ensures { result ≡ own_load bytes.now }
{
    if bytes.len() != load_count(byte(bytes, 0)) as usize {
        return None;
    }
    Some(Command::LoadTrajectory(motion_of(bytes)))
}

// Set Gain.
fn own_gain(bytes: &[u8]) -> Option<Command>
    ensures { result ≡ own_gain bytes.now }
{
    if bytes.len() != 14 {
        return None;
    }
    if byte(bytes, 9) != 0 {
        return None;
    }
    Some(Command::SetGain(gains_of(bytes)))
}

// Stop Motor.
fn own_stop(bytes: &[u8]) -> Option<Command>
    ensures { result ≡ own_stop bytes.now }
{
    let stop = byte(bytes, 0);
    let count = 1 + stop / 16 % 2 * 4;
    if bytes.len() != count as usize {
        return None;
    }
    Some(Command::StopMotor(Stop {
        position: long_if(command::is_stop_here(stop), bytes, 1),
        byte: stop,
    }))
}

// What a command's number and its data bytes say, where it is one of the five.
pub fn drive_own(command: u8, bytes: &[u8]) -> Option<Command>
    ensures { result ≡ drive_own command bytes.now }
{
    match command {
        0x0 => own_plain(Command::ResetPosition, bytes),
        0x4 => own_load(bytes),
        0x5 => own_plain(Command::StartMotion, bytes),
        0x6 => own_gain(bytes),
        0x7 => own_stop(bytes),
        _ => None,
    }
}
