// A drive's own settings: which of them differ, and their words.
use crate::setting::{put_doubt, put_name};
use crate::values::{put_gains, put_position};
use command::Motion;
use entry::{DriveKnown, MotionKnown};
use node::DriveSettings;
use std::io;

// Some values of a motion.
#[derive(Clone, Copy)]
pub(crate) struct MotionChosen {
    pub(crate) control: bool,
    pub(crate) position: bool,
    pub(crate) velocity: bool,
    pub(crate) acceleration: bool,
    pub(crate) pwm: bool,
}

// Some of a drive's own settings.
#[derive(Clone, Copy)]
pub(crate) struct DriveChosen {
    pub(crate) gains: bool,
    pub(crate) stop: bool,
    pub(crate) waiting: MotionChosen,
    pub(crate) in_force: MotionChosen,
}

// ---- a motion

impl MotionChosen {
    const ALL: MotionChosen = MotionChosen {
        control: true,
        position: true,
        velocity: true,
        acceleration: true,
        pwm: true,
    };

    // Those whose value, or whether it is in doubt, differs: of m known as k says, and of o known as l says.
    fn changed(m: Motion, k: MotionKnown, o: Motion, l: MotionKnown) -> MotionChosen {
        MotionChosen {
            control: (m.control != o.control) | (k.control != l.control),
            position: (m.position != o.position) | (k.position != l.position),
            velocity: (m.velocity != o.velocity) | (k.velocity != l.velocity),
            acceleration: (m.acceleration != o.acceleration) | (k.acceleration != l.acceleration),
            pwm: (m.pwm != o.pwm) | (k.pwm != l.pwm),
        }
    }

    fn has_any(self) -> bool {
        self.control | self.position | self.velocity | self.acceleration | self.pwm
    }

    // The chosen ones, behind others or not, each with a word before its name: which motion it is of.
    fn put(
        self,
        rt: &impl Print,
        word: &str,
        motion: Motion,
        known: MotionKnown,
        behind: &mut bool,
    ) -> io::Result<()> {
        if self.control {
            put_value_name(rt, behind, word, "control ")?;
            print!(rt; "{:02X}", motion.control)?;
            put_doubt(rt, known.control)?;
        }
        if self.position {
            put_value_name(rt, behind, word, "position ")?;
            put_position(rt, motion.position)?;
            put_doubt(rt, known.position)?;
        }
        if self.velocity {
            put_value_name(rt, behind, word, "velocity ")?;
            print!(rt; "{:08X}", motion.velocity)?;
            put_doubt(rt, known.velocity)?;
        }
        if self.acceleration {
            put_value_name(rt, behind, word, "acceleration ")?;
            print!(rt; "{:08X}", motion.acceleration)?;
            put_doubt(rt, known.acceleration)?;
        }
        if self.pwm {
            put_value_name(rt, behind, word, "PWM ")?;
            print!(rt; "{:02X}", motion.pwm)?;
            put_doubt(rt, known.pwm)?;
        }
        Ok(())
    }
}

// The name of a motion's value, behind the word for that motion.
fn put_value_name(rt: &impl Print, behind: &mut bool, word: &str, name: &str) -> io::Result<()> {
    put_name(rt, behind, word)?;
    print!(rt; "{name}")
}

// ---- all of them

impl DriveChosen {
    pub(crate) const ALL: DriveChosen = DriveChosen {
        gains: true,
        stop: true,
        waiting: MotionChosen::ALL,
        in_force: MotionChosen::ALL,
    };

    // Those whose value, or whether it is in doubt, differs: of s known as k says, and of t known as l says.
    pub(crate) fn changed(
        s: DriveSettings,
        k: DriveKnown,
        t: DriveSettings,
        l: DriveKnown,
    ) -> DriveChosen {
        DriveChosen {
            gains: (s.gains != t.gains) | (k.gains != l.gains),
            stop: (s.stop != t.stop) | (k.stop != l.stop),
            waiting: MotionChosen::changed(s.waiting, k.waiting, t.waiting, l.waiting),
            in_force: MotionChosen::changed(s.in_force, k.in_force, t.in_force, l.in_force),
        }
    }

    pub(crate) fn has_any(self) -> bool {
        self.gains | self.stop | self.waiting.has_any() | self.in_force.has_any()
    }

    // The chosen ones, behind others or not.
    pub(crate) fn put(
        self,
        rt: &impl Print,
        settings: DriveSettings,
        known: DriveKnown,
        behind: &mut bool,
    ) -> io::Result<()> {
        if self.gains {
            put_name(rt, behind, "gains ")?;
            put_gains(rt, settings.gains)?;
            put_doubt(rt, known.gains)?;
        }
        if self.stop {
            put_name(rt, behind, "stop ")?;
            print!(rt; "{:02X}", settings.stop)?;
            put_doubt(rt, known.stop)?;
        }
        self.waiting
            .put(rt, "waiting ", settings.waiting, known.waiting, behind)?;
        self.in_force
            .put(rt, "", settings.in_force, known.in_force, behind)
    }
}
