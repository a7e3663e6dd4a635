// A gate's own settings in the host's record: which of them are known, and what a command makes of that.
ghost use Rattle.std.specs.Prelude.{◌≡◌};
ghost use Rattle.entry.specs.Parts.{gate_all, gate_mark, gate_blend};

use command::Command;
use node::{GateSettings, pick};

// Which of a gate's own settings are known; the others are in doubt.
#[derive(Clone, Copy, PartialEq, Eq)]
pub struct GateKnown {
    pub outputs: bool,
    pub pwm: bool,
    pub held: bool,
    pub timer: bool,
}

impl GateKnown {
    // All of them, or none.
    pub(crate) fn all(sure: bool) -> GateKnown
        ensures { result ≡ gate_all sure }
    {
        GateKnown {
            outputs: sure,
            pwm: sure,
            held: sure,
            timer: sure,
        }
    }

    // The flags after a command, sure or not: a copy is known only if the held set is.
    pub(crate) fn mark(self, c: Command, sure: bool) -> GateKnown
        ensures { result ≡ gate_mark c sure self }
    {
        let mut k = self;
        match c {
            Command::SetPwm(_) => {
                k.pwm = sure;
                k
            }
            Command::SynchOutput => {
                let copied = sure & k.held;
                k.outputs = copied;
                k.pwm = copied;
                k
            }
            Command::SetOutputs(_) => {
                k.outputs = sure;
                k
            }
            Command::SetSynchOutput(_) => {
                k.held = sure;
                k
            }
            Command::SetTimerMode(_) => {
                k.timer = sure;
                k
            }
            Command::HardReset => GateKnown::all(sure),
            _ => k,
        }
    }

    // Each value by its flag: the new one where it is known, else the old one.
    pub(crate) fn blend(self, new: GateSettings, old: GateSettings) -> GateSettings
        ensures { result ≡ gate_blend self new old }
    {
        GateSettings {
            outputs: pick(self.outputs, new.outputs, old.outputs),
            held: pick(self.held, new.held, old.held),
            pwm: pick(self.pwm, new.pwm, old.pwm),
            timer: pick(self.timer, new.timer, old.timer),
        }
    }
}
