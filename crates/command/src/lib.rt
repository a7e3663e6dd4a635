// The commands of an LS-773 and of an LS-173AP: one enum, whose cases carry their own data.
// Promised: of each command its role, which kinds of node have it, and whether its values are of the manual's ranges.
// Left to others: how a command is read and built (codec), and what it does (node).
#![tactic(auto)]

ghost use Rattle.std.specs.Prelude.{◌≡◌};
ghost use Rattle.command.specs.Role.{role_of, is_placing, is_pacing, is_nop, is_reset};
ghost use Rattle.command.specs.Owner.{owner_of, has};
ghost use Rattle.command.specs.Divisors.{is_listed};
ghost use Rattle.command.specs.Control.{loads_of, is_stop_here};
ghost use Rattle.command.specs.Ranges.{place_fits, gains_fit, value_fits, position_fits, motion_fits, stop_fits, fits_of};

use wire::{Group, Individual, Kind};

// Where a node stands: its individual address, its group, and whether it leads that group.
#[derive(Clone, Copy, PartialEq, Eq)]
pub struct Place {
    pub address: Individual,
    pub group: Group,
    pub leader: bool,
}

// The two PWM output values.
#[derive(Clone, Copy, PartialEq, Eq)]
pub struct Pwm {
    pub first: u8,
    pub second: u8,
}

// What Set Synch Output stores and Synch Output copies.
#[derive(Clone, Copy, PartialEq, Eq)]
pub struct Held {
    pub outputs: u16,
    pub pwm: Pwm,
}

// What Set Gain stores, by the manual's names: the gains KP, KD, KI and the integration limit IL, the error limit EL, the output limit OL,
// the servo rate divisor SR, the deadband compensation DB.
#[derive(Clone, Copy, PartialEq, Eq)]
pub struct Gains {
    pub kp: u16,
    pub kd: u16,
    pub ki: u16,
    pub il: u16,
    pub el: u16,
    pub ol: u8,
    pub sr: u8,
    pub db: u8,
}

// How a drive is to move: what Load Trajectory loads and Start Motion starts. A position is signed: 32 bits, two's complement, as it is sent.
#[derive(Clone, Copy, PartialEq, Eq)]
pub struct Motion {
    pub position: u32,
    pub velocity: u32,
    pub acceleration: u32,
    pub control: u8,
    pub pwm: u8,
}

// What Stop Motor brings: the stop byte and, if its bit 4 says so, the position to stop at.
#[derive(Clone, Copy, PartialEq, Eq)]
pub struct Stop {
    pub position: u32,
    pub byte: u8,
}

#[derive(Clone, Copy, PartialEq, Eq)]
pub enum Command {
    SetAddress(Place),
    DefineStatus(u8),
    ReadStatus(u8),
    SetPwm(Pwm),
    SynchOutput,
    SetOutputs(u16),
    SetSynchOutput(Held),
    SetTimerMode(u8),
    SetBaudRate(u8),
    SynchInput,
    Nop,
    HardReset,
    ResetPosition,
    LoadTrajectory(Motion),
    StartMotion,
    SetGain(Gains),
    StopMotor(Stop),
}

// What a command is beside its data. Whoever treats some commands alike asks for their role, so that a new command is one row of `role`.
#[derive(Clone, Copy, PartialEq, Eq)]
pub enum Role {
    // Stores its data or copies what is held or waits, and no more.
    Plain,
    // Gives the node this place, and addresses it.
    Places(Place),
    // Gives the node this divisor; only a group takes it.
    Paces(u8),
    // Brings the mask of its own reply.
    Masks(u8),
    // Captures the inputs and the counter.
    Captures,
    // Sets the position to zero.
    Zeroes,
    // Does nothing but be answered.
    Idles,
    // Restores power-up state, and is not answered.
    Resets,
}

// Who has a command: both kinds of node, or one alone.
#[derive(Clone, Copy, PartialEq, Eq)]
pub enum Owner {
    Both,
    Gate,
    Drive,
}

impl Command {
    // The one table of roles: a row for each command and no `_`, so that a new one has to be given its own.
    pub fn role(self) -> Role
        ensures { result ≡ role_of self }
    {
        match self {
            Command::SetAddress(place) => Role::Places(place),
            Command::DefineStatus(_) => Role::Plain,
            Command::ReadStatus(mask) => Role::Masks(mask),
            Command::SetPwm(_) => Role::Plain,
            Command::SynchOutput => Role::Plain,
            Command::SetOutputs(_) => Role::Plain,
            Command::SetSynchOutput(_) => Role::Plain,
            Command::SetTimerMode(_) => Role::Plain,
            Command::SetBaudRate(divisor) => Role::Paces(divisor),
            Command::SynchInput => Role::Captures,
            Command::Nop => Role::Idles,
            Command::HardReset => Role::Resets,
            Command::ResetPosition => Role::Zeroes,
            Command::LoadTrajectory(_) => Role::Plain,
            Command::StartMotion => Role::Plain,
            Command::SetGain(_) => Role::Plain,
            Command::StopMotor(_) => Role::Plain,
        }
    }

    // The one table of who has which command, likewise a row for each.
    pub fn owner(self) -> Owner
        ensures { result ≡ owner_of self }
    {
        match self {
            Command::SetAddress(_) => Owner::Both,
            Command::DefineStatus(_) => Owner::Both,
            Command::ReadStatus(_) => Owner::Both,
            Command::SetPwm(_) => Owner::Gate,
            Command::SynchOutput => Owner::Gate,
            Command::SetOutputs(_) => Owner::Gate,
            Command::SetSynchOutput(_) => Owner::Gate,
            Command::SetTimerMode(_) => Owner::Gate,
            Command::SetBaudRate(_) => Owner::Both,
            Command::SynchInput => Owner::Gate,
            Command::Nop => Owner::Both,
            Command::HardReset => Owner::Both,
            Command::ResetPosition => Owner::Drive,
            Command::LoadTrajectory(_) => Owner::Drive,
            Command::StartMotion => Owner::Drive,
            Command::SetGain(_) => Owner::Drive,
            Command::StopMotor(_) => Owner::Drive,
        }
    }

    // Whether all its values are of the manual's ranges.
    pub fn fits(self) -> bool
        ensures { result ≡ fits_of self }
    {
        match self {
            Command::SetAddress(place) => place_fits(place),
            Command::LoadTrajectory(motion) => motion_fits(motion),
            Command::SetGain(gains) => gains_fit(gains),
            Command::StopMotor(stop) => stop_fits(stop),
            _ => true,
        }
    }
}

// Whether a kind of node has a command.
pub fn has(kind: Kind, c: Command) -> bool
    ensures { result ≡ has kind c }
{
    match c.owner() {
        Owner::Both => true,
        Owner::Gate => kind.is_gate(),
        Owner::Drive => !kind.is_gate(),
    }
}

// Whether a kind's manual lists a divisor: four that both list, and four of the LS-773's alone.
#[tactic(auto, unfolding(crate::specs::Divisors::is_listed))]
pub fn is_listed(kind: Kind, divisor: u8) -> bool
    ensures { result ≡ is_listed kind divisor }
{
    match divisor {
        0x81 | 0x3F | 0x14 | 0x0A => true,
        0x27 | 0x0F | 0x07 | 0x03 => kind.is_gate(),
        _ => false,
    }
}

impl Role {
    // Set Address: sent by "next" and by "regroup" alone.
    pub fn is_placing(self) -> bool
        ensures { result ≡ is_placing self }
    {
        matches!(self, Role::Places(_))
    }

    // Set Baud Rate: sent by a call of its own alone, and acted on only where it came to the node's group.
    pub fn is_pacing(self) -> bool
        ensures { result ≡ is_pacing self }
    {
        matches!(self, Role::Paces(_))
    }

    // Nop: what "ask" sends.
    pub fn is_nop(self) -> bool
        ensures { result ≡ is_nop self }
    {
        matches!(self, Role::Idles)
    }

    // Hard Reset: it is not answered, and closes the host's session.
    pub fn is_reset(self) -> bool
        ensures { result ≡ is_reset self }
    {
        matches!(self, Role::Resets)
    }
}

// What a control byte says: which values it brings, by bits 0 to 3, and whether the motion starts at once, by bit 7.
#[derive(Clone, Copy, PartialEq, Eq)]
pub struct Loads {
    pub position: bool,
    pub velocity: bool,
    pub acceleration: bool,
    pub pwm: bool,
    pub starts: bool,
}

impl Loads {
    // The bits of a control byte.
    pub fn of(control: u8) -> Loads
        ensures { result ≡ loads_of control }
    {
        Loads {
            position: control % 2 == 1,
            velocity: control / 2 % 2 == 1,
            acceleration: control / 4 % 2 == 1,
            pwm: control / 8 % 2 == 1,
            starts: control / 128 == 1,
        }
    }
}

// Bit 4 of a stop byte: a position to stop at follows.
pub fn is_stop_here(stop: u8) -> bool
    ensures { result ≡ is_stop_here stop }
{
    stop / 16 % 2 == 1
}

// The most that a velocity or an acceleration is, and a position in either direction.
const MOST_MOTION: u32 = 0x7FFFFFFF;

// The most that KP, KD, KI and IL are, and EL; SR is 1 at least.
const MOST_GAIN: u16 = 0x7FFF;

const MOST_ERROR: u16 = 0x3FFF;

// Whether a place is of its range.
fn place_fits(p: Place) -> bool
    ensures { result ≡ place_fits p }
{
    p.address.in_range() && p.group.in_range()
}

// Whether gains are of their ranges; OL and DB may be any byte.
fn gains_fit(g: Gains) -> bool
    ensures { result ≡ gains_fit g }
{
    let terms = g.kp <= MOST_GAIN && g.kd <= MOST_GAIN && g.ki <= MOST_GAIN;
    terms && g.il <= MOST_GAIN && g.el <= MOST_ERROR && 1 <= g.sr
}

// Whether a position is of its range, -0x7FFFFFFF to 0x7FFFFFFF: two's complement has one number more.
fn position_fits(position: u32) -> bool
    ensures { result ≡ position_fits position }
{
    position != MOST_MOTION + 1
}

// Whether a value is of its range if a command brings it. One that it doesn't bring is not sent, and must be 0: else a command would not come back from its packet.
fn value_fits(brought: bool, fits: bool, value: u32) -> bool
    ensures { result ≡ value_fits brought fits value }
{
    if brought { fits } else { value == 0 }
}

// Whether what a control byte brings is of its ranges.
fn motion_fits(m: Motion) -> bool
    ensures { result ≡ motion_fits m }
{
    let l = Loads::of(m.control);
    value_fits(l.position, position_fits(m.position), m.position)
        && value_fits(l.velocity, m.velocity <= MOST_MOTION, m.velocity)
        && value_fits(
            l.acceleration,
            m.acceleration <= MOST_MOTION,
            m.acceleration,
        )
        && value_fits(l.pwm, true, m.pwm as u32)
}

// Whether a stop byte has no reserved bit and at most one of bits 1 to 4, and the position that it brings is of its range.
fn stop_fits(s: Stop) -> bool
    ensures { result ≡ stop_fits s }
{
    let b = s.byte;
    let chosen = b / 2 % 2 + b / 4 % 2 + b / 8 % 2 + b / 16 % 2;
    b < 0x20 && chosen <= 1 && value_fits(is_stop_here(b), position_fits(s.position), s.position)
}
