// What a packet says to a node that it is meant for, by the node's kind: some command bytes are two commands.
// Promised: which of the three it is to either kind, and whether it is answered at all.
// Left to others: what the node makes of it (node), and the reply (reply).
#![tactic(auto)]

ghost use Rattle.std.specs.Prelude.{◌≡◌};
ghost use Rattle.message.specs.Message.{is_taken, message_by, message_of, is_answered, messages_of, message_to};

use command::Command;
use wire::{Address, Kind};

// A packet with a right sum and a command; with a right sum and another command, or one that isn't taken under its address; with a wrong sum.
#[derive(Clone, Copy)]
pub enum Message {
    Intact(Command),
    Other,
    Spoilt,
}

// Whether a node takes a command that came to this address: Set Baud Rate only by its group.
fn is_taken(to: Address, c: Command) -> bool
    ensures { result ≡ is_taken to c }
{
    match to {
        Address::Individual(_) => !c.role().is_pacing(),
        Address::Group(_) => true,
    }
}

// What a packet with a right sum says.
fn message_by(reading: Option<Command>, to: Address) -> Message
    ensures { result ≡ message_by reading to }
{
    match reading {
        Some(c) if is_taken(to, c) => Message::Intact(c),
        _ => Message::Other,
    }
}

impl Message {
    // By its reading, the address that it came to, and its sum.
    pub fn of(reading: Option<Command>, to: Address, intact: bool) -> Message
        ensures { result ≡ message_of reading to intact }
    {
        if intact {
            return message_by(reading, to);
        }
        Message::Spoilt
    }

    // Whether the node that it is for replies: not to an intact Hard Reset.
    pub fn is_answered(self) -> bool
        ensures { result ≡ is_answered self }
    {
        match self {
            Message::Intact(c) => !c.role().is_reset(),
            Message::Other | Message::Spoilt => true,
        }
    }
}

// What a packet says to a node of each kind; made once for all nodes.
#[derive(Clone, Copy)]
pub struct Messages {
    pub gate: Message,
    pub drive: Message,
}

impl Messages {
    // By what each kind reads, the address, and the sum.
    pub fn of(gate: Option<Command>, drive: Option<Command>, to: Address, intact: bool) -> Messages
        ensures { result ≡ messages_of gate drive to intact }
    {
        Messages {
            gate: Message::of(gate, to, intact),
            drive: Message::of(drive, to, intact),
        }
    }

    // What it says to a node of this kind.
    pub fn to(self, kind: Kind) -> Message
        ensures { result ≡ message_to kind self }
    {
        match kind {
            Kind::Gate => self.gate,
            Kind::Drive => self.drive,
        }
    }
}
