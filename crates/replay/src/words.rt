// What a packet says: a command's name, its data and whom it is for; a reply by itself.
use crate::values::{put_gains, put_held, put_place, put_position, put_pwm};
use calls::Call;
use command::{Command, Loads, Motion, Role, Stop};
use session::Session;
use status::Answer;
use std::io;
use wire::{Address, Individual, Kind, Refusal};

// ---- a command's data

// A control byte, and each value that it loads.
fn put_load(rt: &impl Print, m: Motion) -> io::Result<()> {
    let brought = Loads::of(m.control);
    print!(rt; "{:02X}", m.control)?;
    if brought.position {
        print!(rt; " position ")?;
        put_position(rt, m.position)?;
    }
    if brought.velocity {
        print!(rt; " velocity {:08X}", m.velocity)?;
    }
    if brought.acceleration {
        print!(rt; " acceleration {:08X}", m.acceleration)?;
    }
    if brought.pwm {
        print!(rt; " PWM {:02X}", m.pwm)?;
    }
    Ok(())
}

// A stop byte, and the position to stop at where it brings one.
fn put_stop(rt: &impl Print, s: Stop) -> io::Result<()> {
    print!(rt; "{:02X}", s.byte)?;
    if command::is_stop_here(s.byte) {
        print!(rt; " position ")?;
        put_position(rt, s.position)?;
    }
    Ok(())
}

// A command's name and its data.
fn put_command(rt: &impl Print, c: Command) -> io::Result<()> {
    match c {
        Command::SetAddress(place) => {
            print!(rt; "Set Address ")?;
            put_place(rt, place)
        }
        Command::DefineStatus(mask) => print!(rt; "Define Status {mask:02X}"),
        Command::ReadStatus(mask) => print!(rt; "Read Status {mask:02X}"),
        Command::SetPwm(pwm) => {
            print!(rt; "Set PWM ")?;
            put_pwm(rt, pwm)
        }
        Command::SynchOutput => print!(rt; "Synch Output"),
        Command::SetOutputs(outputs) => print!(rt; "Set Outputs {outputs:04X}"),
        Command::SetSynchOutput(held) => {
            print!(rt; "Set Synch Output ")?;
            put_held(rt, held)
        }
        Command::SetTimerMode(mode) => print!(rt; "Set Timer Mode {mode:02X}"),
        Command::SetBaudRate(divisor) => print!(rt; "Set Baud Rate {divisor:02X}"),
        Command::SynchInput => print!(rt; "Synch Input"),
        Command::Nop => print!(rt; "Nop"),
        Command::HardReset => print!(rt; "Hard Reset"),
        Command::ResetPosition => print!(rt; "Reset Position"),
        Command::LoadTrajectory(motion) => {
            print!(rt; "Load Trajectory ")?;
            put_load(rt, motion)
        }
        Command::StartMotion => print!(rt; "Start Motion"),
        Command::SetGain(gains) => {
            print!(rt; "Set Gain ")?;
            put_gains(rt, gains)
        }
        Command::StopMotor(stop) => {
            print!(rt; "Stop Motor ")?;
            put_stop(rt, stop)
        }
    }
}

// ---- whom it is for

// A node by its number; address 00 is no node's.
fn put_individual(rt: &impl Print, a: u8) -> io::Result<()> {
    if a < 1 {
        return print!(rt; " to address 00");
    }
    print!(rt; " to node {a}")
}

fn put_to(rt: &impl Print, to: Address) -> io::Result<()> {
    match to {
        Address::Individual(i) => put_individual(rt, i.0),
        Address::Group(g) => print!(rt; " to group {:02X}", g.0),
    }
}

// ---- by which kind of node it is read

// A command of the host: by a kind that has what its call sends. Both have what the calls other than orders send.
pub(crate) fn kind_of_call(call: Call) -> Kind {
    match call {
        Call::Order { command, .. } => {
            if command::has(Kind::Gate, command) {
                return Kind::Gate;
            }
            Kind::Drive
        }
        Call::Next | Call::Ask | Call::Regroup { .. } | Call::SetBaudRate { .. } => Kind::Gate,
    }
}

// A command to nobody's own address: by an LS-773, or by an LS-173AP where that gives another command.
fn kind_elsewhere(bytes: &[u8]) -> Kind {
    match calls::understand(Kind::Gate, bytes) {
        Ok(None) => Kind::Drive,
        _ => Kind::Gate,
    }
}

// A command that the host couldn't have sent: by the node's own kind, if it is to a node of the chain.
pub(crate) fn kind_of_foreign(s: Session, bytes: &[u8]) -> Kind {
    if bytes.len() < 2 {
        return Kind::Gate;
    }
    match session::look(s, Individual(bytes[1])) {
        Ok(e) => e.kind,
        Err(_) => kind_elsewhere(bytes),
    }
}

// ---- a packet

// Why some bytes are no packet.
fn put_refusal(rt: &impl Print, why: Refusal) -> io::Result<()> {
    match why {
        Refusal::Short => print!(rt; "cut short"),
        Refusal::Header => print!(rt; "no header"),
        Refusal::Sum => print!(rt; "wrong sum"),
        // 3: understanding has no other refusal.
        _ => print!(rt; "bytes left over"),
    }
}

// A Set Address of 00, which a drive doesn't take.
fn is_untaken(kind: Kind, c: Command) -> bool {
    match c.role() {
        Role::Places(place) => !kind.is_gate() & (place.address.0 < 1),
        _ => false,
    }
}

// What a packet of the command line says to a kind of node.
pub(crate) fn put_spoken(rt: &impl Print, kind: Kind, bytes: &[u8]) -> io::Result<()> {
    match calls::understand(kind, bytes) {
        Ok(Some(spoken)) => {
            if is_untaken(kind, spoken.command) {
                return print!(rt; "another command");
            }
            put_command(rt, spoken.command)?;
            put_to(rt, spoken.to)
        }
        Ok(None) => print!(rt; "another command"),
        Err(why) => put_refusal(rt, why),
    }
}

// What a packet of the reply line says, by itself.
pub(crate) fn put_judged(rt: &impl Print, bytes: &[u8]) -> io::Result<()> {
    match status::judge(bytes) {
        Answer::Clear => print!(rt; "clear"),
        Answer::Marked => print!(rt; "not clear"),
        Answer::Silent => print!(rt; "not good"),
    }
}
