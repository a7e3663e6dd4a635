// A gate's own settings: which of them differ, and their words.
use crate::setting::{put_doubt, put_name};
use crate::values::{put_held, put_pwm};
use entry::GateKnown;
use node::GateSettings;
use std::io;

// Some of them.
#[derive(Clone, Copy)]
pub(crate) struct GateChosen {
    pub(crate) outputs: bool,
    pub(crate) pwm: bool,
    pub(crate) held: bool,
    pub(crate) timer: bool,
}

impl GateChosen {
    pub(crate) const ALL: GateChosen = GateChosen {
        outputs: true,
        pwm: true,
        held: true,
        timer: true,
    };

    // Those whose value, or whether it is in doubt, differs: of s known as k says, and of t known as l says.
    pub(crate) fn changed(
        s: GateSettings,
        k: GateKnown,
        t: GateSettings,
        l: GateKnown,
    ) -> GateChosen {
        GateChosen {
            outputs: (s.outputs != t.outputs) | (k.outputs != l.outputs),
            pwm: (s.pwm != t.pwm) | (k.pwm != l.pwm),
            held: (s.held != t.held) | (k.held != l.held),
            timer: (s.timer != t.timer) | (k.timer != l.timer),
        }
    }

    pub(crate) fn has_any(self) -> bool {
        self.outputs | self.pwm | self.held | self.timer
    }

    // The chosen ones, behind others or not.
    pub(crate) fn put(
        self,
        rt: &impl Print,
        settings: GateSettings,
        known: GateKnown,
        behind: &mut bool,
    ) -> io::Result<()> {
        if self.outputs {
            put_name(rt, behind, "outputs ")?;
            print!(rt; "{:04X}", settings.outputs)?;
            put_doubt(rt, known.outputs)?;
        }
        if self.pwm {
            put_name(rt, behind, "PWM ")?;
            put_pwm(rt, settings.pwm)?;
            put_doubt(rt, known.pwm)?;
        }
        if self.held {
            put_name(rt, behind, "held ")?;
            put_held(rt, settings.held)?;
            put_doubt(rt, known.held)?;
        }
        if self.timer {
            put_name(rt, behind, "timer ")?;
            print!(rt; "{:02X}", settings.timer)?;
            put_doubt(rt, known.timer)?;
        }
        Ok(())
    }
}
