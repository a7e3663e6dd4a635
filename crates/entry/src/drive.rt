// A drive's own settings in the host's record: which of them are known, and what a command makes of that.
ghost use Rattle.std.specs.Prelude.{◌≡◌};
ghost use Rattle.entry.specs.Parts.{load_flags, start_flags, blend_motion, drive_all, drive_load, drive_mark, drive_blend};

use command::{Command, Loads, Motion};
use node::{DriveSettings, pick};

// Which values of a motion are known, each by itself.
#[derive(Clone, Copy, PartialEq, Eq)]
pub struct MotionKnown {
    pub control: bool,
    pub position: bool,
    pub velocity: bool,
    pub acceleration: bool,
    pub pwm: bool,
}

// Which of a drive's own settings are known; the others are in doubt.
#[derive(Clone, Copy, PartialEq, Eq)]
pub struct DriveKnown {
    pub gains: bool,
    pub stop: bool,
    pub waiting: MotionKnown,
    pub in_force: MotionKnown,
}

// The flags of what waits after a load: what it brings is known if it is sure.
fn load_flags(m: Motion, sure: bool, old: MotionKnown) -> MotionKnown
    ensures { result ≡ load_flags m sure old }
{
    let l = Loads::of(m.control);
    MotionKnown {
        control: sure,
        position: pick(l.position, sure, old.position),
        velocity: pick(l.velocity, sure, old.velocity),
        acceleration: pick(l.acceleration, sure, old.acceleration),
        pwm: pick(l.pwm, sure, old.pwm),
    }
}

// The flags of what is in force after a start: a copy is known only if the waiting value is.
fn start_flags(sure: bool, waiting: MotionKnown) -> MotionKnown
    ensures { result ≡ start_flags sure waiting }
{
    MotionKnown {
        control: sure & waiting.control,
        position: sure & waiting.position,
        velocity: sure & waiting.velocity,
        acceleration: sure & waiting.acceleration,
        pwm: sure & waiting.pwm,
    }
}

// A motion, each value by its flag.
fn blend_motion(known: MotionKnown, new: Motion, old: Motion) -> Motion
    ensures { result ≡ blend_motion known new old }
{
    Motion {
        position: pick(known.position, new.position, old.position),
        velocity: pick(known.velocity, new.velocity, old.velocity),
        acceleration: pick(known.acceleration, new.acceleration, old.acceleration),
        control: pick(known.control, new.control, old.control),
        pwm: pick(known.pwm, new.pwm, old.pwm),
    }
}

impl DriveKnown {
    // All of them, or none.
    pub(crate) fn all(sure: bool) -> DriveKnown
        ensures { result ≡ drive_all sure }
    {
        let motion = MotionKnown {
            control: sure,
            position: sure,
            velocity: sure,
            acceleration: sure,
            pwm: sure,
        };
        DriveKnown {
            gains: sure,
            stop: sure,
            waiting: motion,
            in_force: motion,
        }
    }

    // The flags after Load Trajectory; with the start bit all that then waits is copied.
    fn load(self, m: Motion, sure: bool) -> DriveKnown
        ensures { result ≡ drive_load m sure self }
    {
        let mut k = self;
        k.waiting = load_flags(m, sure, k.waiting);
        if Loads::of(m.control).starts {
            k.in_force = start_flags(sure, k.waiting);
        }
        k
    }

    // The flags after a command, sure or not.
    pub(crate) fn mark(self, c: Command, sure: bool) -> DriveKnown
        ensures { result ≡ drive_mark c sure self }
    {
        let mut k = self;
        match c {
            Command::LoadTrajectory(motion) => k.load(motion, sure),
            Command::StartMotion => {
                k.in_force = start_flags(sure, k.waiting);
                k
            }
            Command::SetGain(_) => {
                k.gains = sure;
                k
            }
            Command::StopMotor(_) => {
                k.stop = sure;
                k
            }
            Command::HardReset => DriveKnown::all(sure),
            _ => k,
        }
    }

    // Each value by its flag: the new one where it is known, else the old one.
    pub(crate) fn blend(self, new: DriveSettings, old: DriveSettings) -> DriveSettings
        ensures { result ≡ drive_blend self new old }
    {
        DriveSettings {
            waiting: blend_motion(self.waiting, new.waiting, old.waiting),
            in_force: blend_motion(self.in_force, new.in_force, old.in_force),
            gains: pick(self.gains, new.gains, old.gains),
            stop: pick(self.stop, new.stop, old.stop),
        }
    }
}
