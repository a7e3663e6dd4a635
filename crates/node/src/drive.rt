// The settings of a drive, an LS-173AP: at power-up, and after a command.
ghost use Rattle.std.specs.Prelude.{◌≡◌};
ghost use Rattle.node.specs.Effect.{at_rest, drive_power_up};
ghost use Rattle.node.specs.Parts.{load_of, loaded_of, drive_after, drive_take};

use crate::choice::pick;
use command::{Command, Gains, Loads, Motion};
use message::Message;

// What a drive has of its own: gains, stop byte, and the motion that waits for Start Motion and the one in force.
#[derive(Clone, Copy, PartialEq, Eq)]
pub struct DriveSettings {
    pub waiting: Motion,
    pub in_force: Motion,
    pub gains: Gains,
    pub stop: u8,
}

// A motion with what a load brings: its control byte, and the values that this says.
fn load(old: Motion, m: Motion) -> Motion
    ensures { result ≡ load_of m old }
{
    let l = Loads::of(m.control);
    Motion {
        position: pick(l.position, m.position, old.position),
        velocity: pick(l.velocity, m.velocity, old.velocity),
        acceleration: pick(l.acceleration, m.acceleration, old.acceleration),
        control: m.control,
        pwm: pick(l.pwm, m.pwm, old.pwm),
    }
}

impl DriveSettings {
    // The state of a drive at power-up; all that is not named here is 0.
    pub const SERVO_RATE: u8 = 1;

    pub fn power_up() -> DriveSettings
        ensures { result ≡ drive_power_up }
    {
        let rest = Motion {
            position: 0,
            velocity: 0,
            acceleration: 0,
            control: 0,
            pwm: 0,
        };
        DriveSettings {
            waiting: rest,
            in_force: rest,
            gains: Gains {
                kp: 0,
                kd: 0,
                ki: 0,
                il: 0,
                el: 0,
                ol: 0,
                sr: DriveSettings::SERVO_RATE,
                db: 0,
            },
            stop: 0,
        }
    }

    // After Load Trajectory: what it brings waits; with the start bit all that then waits is in force.
    fn loaded(self, m: Motion) -> DriveSettings
        ensures { result ≡ loaded_of m self }
    {
        let mut s = self;
        s.waiting = load(s.waiting, m);
        if Loads::of(m.control).starts {
            s.in_force = s.waiting;
        }
        s
    }

    // A drive's settings after a command.
    pub(crate) fn after(self, c: Command) -> DriveSettings
        ensures { result ≡ drive_after c self }
    {
        let mut s = self;
        match c {
            Command::LoadTrajectory(motion) => s.loaded(motion),
            Command::StartMotion => {
                s.in_force = s.waiting;
                s
            }
            Command::SetGain(gains) => {
                s.gains = gains;
                s
            }
            Command::StopMotor(stop) => {
                s.stop = stop.byte;
                s
            }
            Command::HardReset => DriveSettings::power_up(),
            _ => s,
        }
    }

    // After a packet: another command and a wrong sum change nothing.
    pub(crate) fn take(self, message: Message) -> DriveSettings
        ensures { result ≡ drive_take message self }
    {
        match message {
            Message::Intact(c) => self.after(c),
            Message::Other | Message::Spoilt => self,
        }
    }
}
