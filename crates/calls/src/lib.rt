// The host's calls that send, as one type: made, and found again by the bytes that they put on the line.
// Promised: a call that is made is the one of walk or host; the call found for some bytes gives them in that session with number 0, and where none is found none does.
// Bytes are looked for as a recording has them: sent at the divisor of power-up, and by any call but Set Baud Rate.
// The two kinds of node read some bytes as two commands: found is the one that the nodes it may reach have, and where it reaches nobody it makes no difference.
// Left to others: what each call does (walk, host), and which bytes came after which (recording).
#![tactic(auto)]

ghost use Rattle.std.specs.Prelude.{◌≡◌};
ghost use Rattle.wire.specs.Promise.{Promise, Lending};
ghost use Rattle.wire.specs.Numbers.{number_by};
ghost use Rattle.session.specs.Session.{step_number};
ghost use Rattle.calls.specs.Calls.{call_perform};
ghost use Rattle.calls.specs.Understanding.{spoken_to, understand_of};
ghost use Rattle.calls.specs.Finding.{missed_of, try_call, early_call, late_call, seek_of, find_as, find_of};

use command::{Command, Role};
use node::Node;
use session::{Session, Step};
use wire::{Address, Group, Individual, Kind, Refusal};

// A call that sends, with its arguments.
#[derive(Clone, Copy)]
pub enum Call {
    Next,
    Ask,
    Order {
        to: Address,
        command: Command,
    },
    Regroup {
        node: Individual,
        group: Group,
        leader: bool,
    },
    SetBaudRate {
        group: Group,
        divisor: u8,
    },
}

impl Call {
    // Makes the call at a divisor: what `walk` or `host` makes of it.
    pub fn perform(self, s: Session, at: u8, out: &mut [u8]) -> Step
        ensures { Lending step_number result out.new (call_perform self s at out.old) }
    {
        match self {
            Call::Next => walk::next(s, at, out),
            Call::Ask => walk::ask(s, at, out),
            Call::Order { to, command } => host::order(s, at, to, command, out),
            Call::Regroup {
                node,
                group,
                leader,
            } => host::regroup(s, at, node, group, leader, out),
            Call::SetBaudRate { group, divisor } => {
                host::set_baud_rate(s, at, group, divisor, out)
            }
        }
    }
}

// What a packet of the command line says: a command, and whom it is for.
#[derive(Clone, Copy)]
pub struct Spoken {
    pub to: Address,
    pub command: Command,
}

// The call that gives some bytes and the session after it; where none does, the session as it was handed in.
#[derive(Clone, Copy)]
pub struct Sought {
    pub source: Option<Call>,
    pub session: Session,
}

// What the command of a packet to an address says, if it is one of ours.
fn spoken_to(to: Address, reading: Option<Command>) -> Option<Spoken>
    ensures { result ≡ spoken_to to reading }
{
    let command = reading?;
    Some(Spoken { to, command })
}

// What the bytes between two gaps say to a kind of node, all of them, or that it is another command; or why they are no packet: 1, 2, 1, 4 as reading has them,
// then 3 for bytes left over.
#[tactic(auto, unfolding(crate::specs::Understanding::understand_of))]
pub fn understand(kind: Kind, bytes: &[u8]) -> Result<Option<Spoken>, Refusal>
    ensures { Promise number_by result (understand_of kind bytes.now) }
{
    let framed = packet::read(bytes)?;
    if framed.end < bytes.len() {
        return Err(Refusal::Long);
    }
    let reading = codec::read(kind, framed.command, packet::data_part(bytes));
    Ok(spoken_to(framed.address, reading))
}

// None gives these bytes.
fn missed(s: Session) -> Sought
    ensures { result ≡ missed_of s }
{
    Sought {
        source: None,
        session: s,
    }
}

// Whether a call, made in this session at the divisor of power-up, gives these bytes. The longest packet has 19.
#[tactic(auto, unfolding(crate::specs::Finding::try_call))]
fn try_call(s: Session, call: Call, bytes: &[u8]) -> Sought
    ensures { result ≡ try_call s call bytes.now }
{
    let mut out = [0; 19];
    let step = call.perform(s, Node::DIVISOR, &mut out);
    match step.end {
        Ok(Some(n)) if text::is_same(text::first(&out, n), bytes) => Sought {
            source: Some(call),
            session: step.session,
        },
        _ => missed(s),
    }
}

// The call of the walk that sends such a command.
fn early_call(c: Command) -> Call
    ensures { result ≡ early_call c }
{
    if c.role().is_placing() {
        return Call::Next;
    }
    Call::Ask
}

// The call of a ready session that sends this command to an address.
fn late_call(to: Address, c: Command) -> Call
    ensures { result ≡ late_call to c }
{
    match c.role() {
        Role::Places(place) => Call::Regroup {
            node: place.address,
            group: place.group,
            leader: place.leader,
        },
        // No call that is looked for sends a Set Baud Rate: as an order it is refused.
        _ => Call::Order { to, command: c },
    }
}

// The first of two calls that gives these bytes.
#[tactic(auto, unfolding(crate::specs::Finding::seek_of))]
fn seek(s: Session, early: Call, late: Call, bytes: &[u8]) -> Sought
    ensures { result ≡ seek_of s early late bytes.now }
{
    let sought = try_call(s, early, bytes);
    match sought.source {
        Some(_) => sought,
        None => try_call(s, late, bytes),
    }
}

// The call that sends what these bytes say to a kind of node.
#[tactic(auto, unfolding(crate::specs::Finding::find_as))]
fn find_as(kind: Kind, s: Session, bytes: &[u8]) -> Sought
    ensures { result ≡ find_as kind s bytes.now }
{
    match understand(kind, bytes) {
        Ok(Some(spoken)) => seek(
            s,
            early_call(spoken.command),
            late_call(spoken.to, spoken.command),
            bytes,
        ),
        _ => missed(s),
    }
}

// The call that gives these bytes in this session: a host in it could have sent them, or could not. Where both kinds read a command of their own, the host refuses the one
// that a node it may reach lacks.
#[tactic(auto, unfolding(crate::specs::Finding::find_of))]
pub fn find(s: Session, bytes: &[u8]) -> Sought
    ensures { result ≡ find_of s bytes.now }
{
    let sought = find_as(Kind::Gate, s, bytes);
    match sought.source {
        Some(_) => sought,
        None => find_as(Kind::Drive, s, bytes),
    }
}
