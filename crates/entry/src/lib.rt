// One node's entry in the host's record: its kind, its settings as last known, which of them are known, and what an answer makes of it.
// Promised: only what the command writes changes, by the node's own table of effects; doubt changes no value; the kind stays.
// Left to others: which nodes a command goes to (ledger), and how a reply is judged (status).
#![tactic(auto)]

mod drive;
mod gate;

ghost use Rattle.std.specs.Prelude.{◌≡◌};
ghost use Rattle.entry.specs.Entry.{entry_power_up, mark_of, confirm_of, doubt_of, note_of};
ghost use Rattle.entry.specs.Parts.{mark_place, mark_divisor, mark_mask, blend_of};

use command::{Command, Role};
pub use drive::{DriveKnown, MotionKnown};
pub use gate::GateKnown;
use node::{Settings, pick};
use status::Answer;
use wire::Kind;

// Which of the settings are known, in the parts that settings have; the others are in doubt.
#[derive(Clone, Copy, PartialEq, Eq)]
pub struct Known {
    pub place: bool,
    pub mask: bool,
    pub divisor: bool,
    pub gate: GateKnown,
    pub drive: DriveKnown,
}

// A setting in doubt shows its last known value. The settings of the other kind are of no use, and are not shown.
#[derive(Clone, Copy, PartialEq, Eq)]
pub struct Entry {
    pub settings: Settings,
    pub known: Known,
    pub kind: Kind,
}

// What a command is to the node. Misses: it doesn't go there. Hits: it goes there, and a reply to it is this node's own.
// May: it went to a group that the node isn't known to lead; the node may be written, and no reply tells whether it was.
#[derive(Clone, Copy, PartialEq, Eq)]
pub enum Reach {
    Misses,
    Hits,
    May,
}

// The flag of the place after a command: known if it is written and the command is sure, that is confirmed.
fn mark_place(known: bool, role: Role, sure: bool) -> bool
    ensures { result ≡ mark_place role sure known }
{
    match role {
        Role::Places(_) | Role::Resets => sure,
        _ => known,
    }
}

// The flag of the divisor.
fn mark_divisor(known: bool, role: Role, sure: bool) -> bool
    ensures { result ≡ mark_divisor role sure known }
{
    match role {
        Role::Paces(_) | Role::Resets => sure,
        _ => known,
    }
}

// The flag of the mask.
fn mark_mask(known: bool, c: Command, sure: bool) -> bool
    ensures { result ≡ mark_mask c sure known }
{
    match c {
        Command::DefineStatus(_) | Command::HardReset => sure,
        _ => known,
    }
}

// The flags after a command: what it stores is known if the command is sure; what it copies, if the original is known too.
fn mark(known: Known, c: Command, sure: bool) -> Known
    ensures { result ≡ mark_of c sure known }
{
    let role = c.role();
    Known {
        place: mark_place(known.place, role, sure),
        mask: mark_mask(known.mask, c, sure),
        divisor: mark_divisor(known.divisor, role, sure),
        gate: known.gate.mark(c, sure),
        drive: known.drive.mark(c, sure),
    }
}

// Each value by its flag: the new one where it is known, else the old one, which is the last known.
fn blend(known: Known, new: Settings, old: Settings) -> Settings
    ensures { result ≡ blend_of known new old }
{
    Settings {
        drive: known.drive.blend(new.drive, old.drive),
        gate: known.gate.blend(new.gate, old.gate),
        place: pick(known.place, new.place, old.place),
        mask: pick(known.mask, new.mask, old.mask),
        divisor: pick(known.divisor, new.divisor, old.divisor),
    }
}

impl Entry {
    // At power-up every setting is known.
    pub fn power_up(kind: Kind) -> Entry
        ensures { result ≡ entry_power_up kind }
    {
        Entry {
            settings: Settings::power_up(),
            known: Known {
                place: true,
                mask: true,
                divisor: true,
                gate: GateKnown::all(true),
                drive: DriveKnown::all(true),
            },
            kind,
        }
    }

    // All that a command may write goes into doubt.
    pub fn doubt(self, c: Command) -> Entry
        ensures { result ≡ doubt_of c self }
    {
        let mut e = self;
        e.known = mark(self.known, c, false);
        e
    }

    // A confirmed command makes what it writes known and new; a copy of what is in doubt, held or waiting, goes into doubt.
    fn confirm(self, c: Command) -> Entry
        ensures { result ≡ confirm_of c self }
    {
        let mut e = self;
        e.known = mark(self.known, c, true);
        e.settings = blend(e.known, self.settings.after(c), self.settings);
        e
    }

    // The entry after an exchange: the command, whether it went to the node, and how it was answered.
    pub fn note(self, answer: Answer, reach: Reach, c: Command) -> Entry
        ensures { result ≡ note_of answer reach c self }
    {
        match (answer, reach) {
            (Answer::Marked, _) | (_, Reach::Misses) => self,
            (Answer::Clear, Reach::Hits) => self.confirm(c),
            (Answer::Clear, Reach::May) | (Answer::Silent, _) => self.doubt(c),
        }
    }
}
