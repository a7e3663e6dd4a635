// What a node holds, its power-up state, and what each command does.
ghost use Rattle.std.specs.Prelude.{◌≡◌};
ghost use Rattle.node.specs.Effect.{place_power_up, settings_power_up, settings_after};
ghost use Rattle.node.specs.Node.{nothing, bench_blank, power_up, does_heed, addressed_after, captured_after, position_after, take_gate, take_drive, take_of, shown_of, mask_after};
ghost use Rattle.node.specs.Parts.{message_role, heeded_role, place_by, divisor_by, mask_by, mask_take};

use crate::drive::DriveSettings;
use crate::gate::GateSettings;
use command::{Command, Place, Role};
use message::Message;
use wire::{Group, Individual, Kind};

// The settings: every node's place, mask and divisor, and what its kind has of its own. A node has no use for the other kind's, and leaves them as they are.
#[derive(Clone, Copy, PartialEq, Eq)]
pub struct Settings {
    pub drive: DriveSettings,
    pub gate: GateSettings,
    pub place: Place,
    pub mask: u8,
    pub divisor: u8,
}

// What the bench sets and no command changes: a gate's inputs, counter and analog values; a drive's home position, velocity, position error, A/D value
// and auxiliary status; either's device ID and version.
#[derive(Clone, Copy, PartialEq, Eq)]
pub struct Bench {
    pub counter: u32,
    pub home: u32,
    pub inputs: u16,
    pub velocity: u16,
    pub error: u16,
    pub analog0: u8,
    pub analog1: u8,
    pub analog2: u8,
    pub ad: u8,
    pub auxiliary: u8,
    pub id: u8,
    pub version: u8,
}

impl Bench {
    // A bench on which nothing is set.
    pub fn blank() -> Bench
        ensures { result ≡ bench_blank }
    {
        Bench {
            counter: 0,
            home: 0,
            inputs: 0,
            velocity: 0,
            error: 0,
            analog0: 0,
            analog1: 0,
            analog2: 0,
            ad: 0,
            auxiliary: 0,
            id: 0,
            version: 0,
        }
    }
}

// The inputs and the counter as Synch Input found them.
#[derive(Clone, Copy, PartialEq, Eq)]
pub struct Captured {
    pub counter: u32,
    pub inputs: u16,
}

// A drive's position is set by the bench, and to zero by commands: no setting.
#[derive(Clone, Copy)]
pub struct Node {
    pub settings: Settings,
    pub bench: Bench,
    pub captured: Captured,
    pub position: u32,
    pub addressed: bool,
    pub kind: Kind,
}

// What a node's status items are read off.
#[derive(Clone, Copy)]
pub struct Shown {
    pub bench: Bench,
    pub captured: Captured,
    pub position: u32,
    pub kind: Kind,
}

// A drive has no address 0x00: it replies to a Set Address that would give it, and changes nothing.
fn does_heed(kind: Kind, role: Role) -> bool
    ensures { result ≡ does_heed kind role }
{
    match role {
        Role::Places(place) => kind.is_gate() || 1 <= place.address.0,
        _ => true,
    }
}

// Whether the node is addressed after a command.
fn addressed_after(role: Role, addressed: bool) -> bool
    ensures { result ≡ addressed_after role addressed }
{
    match role {
        Role::Places(_) => true,
        Role::Resets => false,
        _ => addressed,
    }
}

// Captured at power-up.
fn nothing() -> Captured
    ensures { result ≡ nothing }
{
    Captured {
        counter: 0,
        inputs: 0,
    }
}

// What a gate has captured after a command.
fn captured_after(role: Role, bench: Bench, captured: Captured) -> Captured
    ensures { result ≡ captured_after role bench captured }
{
    match role {
        Role::Captures => Captured {
            counter: bench.counter,
            inputs: bench.inputs,
        },
        Role::Resets => nothing(),
        _ => captured,
    }
}

// A drive's position after a command.
fn position_after(role: Role, position: u32) -> u32
    ensures { result ≡ position_after role position }
{
    match role {
        Role::Zeroes | Role::Resets => 0,
        _ => position,
    }
}

impl Node {
    // The power-up state of a node of either kind; `GateSettings` and `DriveSettings` have each kind's own, and all that is not named is 0.
    pub const ADDRESS: u8 = 0x00;

    pub const GROUP: u8 = 0xFF;

    pub const LEADER: bool = false;

    pub const DIVISOR: u8 = 0x3F;

    pub const ADDRESSED: bool = false;

    // A node of a kind at power-up, with what the bench has set.
    pub fn power_up(kind: Kind, bench: Bench) -> Node
        ensures { result ≡ power_up kind bench }
    {
        Node {
            settings: Settings::power_up(),
            bench,
            captured: nothing(),
            position: 0,
            addressed: Node::ADDRESSED,
            kind,
        }
    }

    // The node after a packet, as a gate takes it: a drive's settings and position are not looked at.
    // Who walks along a table asks for the kind there, and stores what this gives. It is made part by part, each by the packet,
    // so that what every packet leaves is not copied.
    // Two functions, a kind each: one that goes by the kind in each part chooses values that are then copied whole, and is slower (docs/PERFORMANCE.md).
    pub fn take_gate(self, message: Message) -> Node
        ensures { result ≡ take_gate message self }
    {
        let role = message_role(message);
        Node {
            settings: Settings {
                drive: self.settings.drive,
                gate: self.settings.gate.take(message),
                place: place_by(role, self.settings.place),
                mask: mask_take(message, self.settings.mask),
                divisor: divisor_by(role, self.settings.divisor),
            },
            bench: self.bench,
            captured: captured_after(role, self.bench, self.captured),
            position: self.position,
            addressed: addressed_after(role, self.addressed),
            kind: self.kind,
        }
    }

    // As a drive takes it: a gate's settings and captured values are not looked at.
    pub fn take_drive(self, message: Message) -> Node
        ensures { result ≡ take_drive message self }
    {
        let role = heeded_role(message);
        Node {
            settings: Settings {
                drive: self.settings.drive.take(message),
                gate: self.settings.gate,
                place: place_by(role, self.settings.place),
                mask: mask_take(message, self.settings.mask),
                divisor: divisor_by(role, self.settings.divisor),
            },
            bench: self.bench,
            captured: self.captured,
            position: position_after(role, self.position),
            addressed: addressed_after(role, self.addressed),
            kind: self.kind,
        }
    }

    // The node after a packet, by its kind.
    pub fn take(self, message: Message) -> Node
        ensures { result ≡ take_of message self }
    {
        match self.kind {
            Kind::Gate => self.take_gate(message),
            Kind::Drive => self.take_drive(message),
        }
    }
}

// A packet's command by its role; what is no command of ours does nothing but be answered, as a Nop.
fn message_role(message: Message) -> Role
    ensures { result ≡ message_role message }
{
    match message {
        Message::Intact(c) => c.role(),
        Message::Other | Message::Spoilt => Role::Idles,
    }
}

// As a kind of node heeds it: what it doesn't heed is as a Nop too.
fn heeded_role(message: Message) -> Role
    ensures { result ≡ heeded_role message }
{
    let role = message_role(message);
    if does_heed(Kind::Drive, role) {
        role
    } else {
        Role::Idles
    }
}

// The mask after a command.
fn mask_by(c: Command, mask: u8) -> u8
    ensures { result ≡ mask_by c mask }
{
    match c {
        Command::DefineStatus(new) => new,
        Command::HardReset => 0,
        _ => mask,
    }
}

// After a packet.
fn mask_take(message: Message, mask: u8) -> u8
    ensures { result ≡ mask_take message mask }
{
    match message {
        Message::Intact(c) => mask_by(c, mask),
        Message::Other | Message::Spoilt => mask,
    }
}

// The place at power-up.
fn place_power_up() -> Place
    ensures { result ≡ place_power_up }
{
    Place {
        address: Individual(Node::ADDRESS),
        group: Group(Node::GROUP),
        leader: Node::LEADER,
    }
}

// The place after a command.
fn place_by(role: Role, place: Place) -> Place
    ensures { result ≡ place_by role place }
{
    match role {
        Role::Places(new) => new,
        Role::Resets => place_power_up(),
        _ => place,
    }
}

// The divisor after a command.
fn divisor_by(role: Role, divisor: u8) -> u8
    ensures { result ≡ divisor_by role divisor }
{
    match role {
        Role::Paces(new) => new,
        Role::Resets => Node::DIVISOR,
        _ => divisor,
    }
}

// What a reply shows of a node, without the node itself: a copy of it is what a delivery would pay for.
impl Node {
    // The mask that it holds after a packet.
    pub fn mask_after(self, message: Message) -> u8
        ensures { result ≡ mask_after message self }
    {
        mask_take(message, self.settings.mask)
    }

    // What its items are read off after a packet.
    pub fn shown(self, message: Message) -> Shown
        ensures { result ≡ shown_of (take_of message self) }
    {
        match self.kind {
            Kind::Gate => Shown {
                bench: self.bench,
                captured: captured_after(message_role(message), self.bench, self.captured),
                position: self.position,
                kind: self.kind,
            },
            Kind::Drive => Shown {
                bench: self.bench,
                captured: self.captured,
                position: position_after(heeded_role(message), self.position),
                kind: self.kind,
            },
        }
    }
}

impl Settings {
    // The settings at power-up.
    pub fn power_up() -> Settings
        ensures { result ≡ settings_power_up }
    {
        Settings {
            drive: DriveSettings::power_up(),
            gate: GateSettings::power_up(),
            place: place_power_up(),
            mask: 0,
            divisor: Node::DIVISOR,
        }
    }

    // The settings after a command, either kind's: what the host's record goes by.
    pub fn after(self, c: Command) -> Settings
        ensures { result ≡ settings_after c self }
    {
        let role = c.role();
        Settings {
            drive: self.drive.after(c),
            gate: self.gate.after(c),
            place: place_by(role, self.place),
            mask: mask_by(c, self.mask),
            divisor: divisor_by(role, self.divisor),
        }
    }
}
