// The settings of a gate, an LS-773: at power-up, and after a command.
ghost use Rattle.std.specs.Prelude.{◌≡◌};
ghost use Rattle.node.specs.Effect.{gate_power_up};
ghost use Rattle.node.specs.Parts.{gate_after, gate_take};

use command::{Command, Held, Pwm};
use message::Message;

// What a gate has of its own.
#[derive(Clone, Copy, PartialEq, Eq)]
pub struct GateSettings {
    pub outputs: u16,
    pub held: Held,
    pub pwm: Pwm,
    pub timer: u8,
}

impl GateSettings {
    // The state of a gate at power-up.
    pub const OUTPUTS: u16 = 0;

    pub const PWM: u8 = 0;

    pub const TIMER: u8 = 0;

    pub fn power_up() -> GateSettings
        ensures { result ≡ gate_power_up }
    {
        let off = Pwm {
            first: GateSettings::PWM,
            second: GateSettings::PWM,
        };
        GateSettings {
            outputs: GateSettings::OUTPUTS,
            held: Held {
                outputs: GateSettings::OUTPUTS,
                pwm: off,
            },
            pwm: off,
            timer: GateSettings::TIMER,
        }
    }

    // A gate's settings after a command.
    pub(crate) fn after(self, c: Command) -> GateSettings
        ensures { result ≡ gate_after c self }
    {
        let mut s = self;
        match c {
            Command::SetPwm(pwm) => {
                s.pwm = pwm;
                s
            }
            Command::SynchOutput => {
                s.outputs = s.held.outputs;
                s.pwm = s.held.pwm;
                s
            }
            Command::SetOutputs(outputs) => {
                s.outputs = outputs;
                s
            }
            Command::SetSynchOutput(held) => {
                s.held = held;
                s
            }
            Command::SetTimerMode(mode) => {
                s.timer = mode;
                s
            }
            Command::HardReset => GateSettings::power_up(),
            _ => s,
        }
    }

    // After a packet: another command and a wrong sum change nothing.
    pub(crate) fn take(self, message: Message) -> GateSettings
        ensures { result ≡ gate_take message self }
    {
        match message {
            Message::Intact(c) => self.after(c),
            Message::Other | Message::Spoilt => self,
        }
    }
}
