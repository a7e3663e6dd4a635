// What both records have: divisor and place, and the settings behind them.
ghost use Rattle.std.specs.Prelude.{◌≡◌};
ghost use Rattle.layout.specs.Settings.{read_place, read_held, read_gate, read_gains, read_motion, read_drive, read_settings};
ghost use Rattle.layout.specs.Settings.{put_place, put_held, put_gate, put_gains, put_motion, put_drive, put_settings};

use command::{Gains, Held, Motion, Place, Pwm};
use fields::{Answer, byte, long, word};
use node::{DriveSettings, GateSettings, Settings};
use text::rest;
use wire::{Group, Individual, Kind};

// Address, group, leader.
pub(crate) fn read_place(s: &[u8]) -> Place
    ensures { result ≡ read_place s.now }
{
    Place {
        address: Individual(byte(s, 0)),
        group: Group(byte(s, 1)),
        leader: byte(s, 2) == 1,
    }
}

// Outputs (2), PWM 1, PWM 2.
fn read_held(s: &[u8]) -> Held
    ensures { result ≡ read_held s.now }
{
    Held {
        outputs: word(s, 0),
        pwm: Pwm {
            first: byte(s, 2),
            second: byte(s, 3),
        },
    }
}

// A gate's own: outputs (2), PWM pair, held outputs (2), held PWM pair, timer mode.
fn read_gate(s: &[u8]) -> GateSettings
    ensures { result ≡ read_gate s.now }
{
    let live = read_held(s);
    GateSettings {
        outputs: live.outputs,
        held: read_held(rest(s, 4)),
        pwm: live.pwm,
        timer: byte(s, 8),
    }
}

// GAINS: KP(2) KD(2) KI(2) IL(2) OL EL(2) SR DB.
fn read_gains(s: &[u8]) -> Gains
    ensures { result ≡ read_gains s.now }
{
    Gains {
        kp: word(s, 0),
        kd: word(s, 2),
        ki: word(s, 4),
        il: word(s, 6),
        el: word(s, 9),
        ol: byte(s, 8),
        sr: byte(s, 11),
        db: byte(s, 12),
    }
}

// MOTION: control byte, position (4), velocity (4), acceleration (4), PWM value.
fn read_motion(s: &[u8]) -> Motion
    ensures { result ≡ read_motion s.now }
{
    Motion {
        position: long(s, 1),
        velocity: long(s, 5),
        acceleration: long(s, 9),
        control: byte(s, 0),
        pwm: byte(s, 13),
    }
}

// A drive's own: GAINS, stop byte, MOTION waiting, MOTION in force.
fn read_drive(s: &[u8]) -> DriveSettings
    ensures { result ≡ read_drive s.now }
{
    DriveSettings {
        waiting: read_motion(rest(s, 14)),
        in_force: read_motion(rest(s, 28)),
        gains: read_gains(s),
        stop: byte(s, 13),
    }
}

// Mask, and what the kind has of its own, behind divisor and place; the other kind's is as at power-up.
pub(crate) fn read_settings(kind: Kind, divisor: u8, place: Place, s: &[u8]) -> Settings
    ensures { result ≡ read_settings kind divisor place s.now }
{
    let mask = byte(s, 0);
    match kind {
        Kind::Gate => Settings {
            drive: DriveSettings::power_up(),
            gate: read_gate(rest(s, 1)),
            place,
            mask,
            divisor,
        },
        Kind::Drive => Settings {
            drive: read_drive(rest(s, 1)),
            gate: GateSettings::power_up(),
            place,
            mask,
            divisor,
        },
    }
}

// With a place more.
pub(crate) fn put_place(a: Answer, p: Place) -> Answer
    ensures { result ≡ put_place a p }
{
    a.put(p.address.0).put(p.group.0).put_flag(p.leader)
}

// With outputs and a PWM pair more.
fn put_held(a: Answer, h: Held) -> Answer
    ensures { result ≡ put_held a h }
{
    a.put_word(h.outputs).put(h.pwm.first).put(h.pwm.second)
}

// With a gate's own more.
fn put_gate(a: Answer, g: GateSettings) -> Answer
    ensures { result ≡ put_gate a g }
{
    let live = Held {
        outputs: g.outputs,
        pwm: g.pwm,
    };
    put_held(put_held(a, live), g.held).put(g.timer)
}

// With GAINS more.
fn put_gains(a: Answer, g: Gains) -> Answer
    ensures { result ≡ put_gains a g }
{
    a.put_word(g.kp)
        .put_word(g.kd)
        .put_word(g.ki)
        .put_word(g.il)
        .put(g.ol)
        .put_word(g.el)
        .put(g.sr)
        .put(g.db)
}

// With a MOTION more.
fn put_motion(a: Answer, m: Motion) -> Answer
    ensures { result ≡ put_motion a m }
{
    a.put(m.control)
        .put_long(m.position)
        .put_long(m.velocity)
        .put_long(m.acceleration)
        .put(m.pwm)
}

// With a drive's own more.
fn put_drive(a: Answer, d: DriveSettings) -> Answer
    ensures { result ≡ put_drive a d }
{
    let a = put_gains(a, d.gains).put(d.stop);
    put_motion(put_motion(a, d.waiting), d.in_force)
}

// With the settings behind the place more: the mask, and what the kind has of its own.
pub(crate) fn put_settings(a: Answer, kind: Kind, s: Settings) -> Answer
    ensures { result ≡ put_settings a kind s }
{
    let a = a.put(s.mask);
    match kind {
        Kind::Gate => put_gate(a, s.gate),
        Kind::Drive => put_drive(a, s.drive),
    }
}
