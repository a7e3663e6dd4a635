// A packet and a look at each node: who acts, who replies, and whether the table can be used at all.
ghost use Rattle.std.specs.Prelude.{◌≡◌};
ghost use Rattle.survey.specs.Survey.{receive_of, glance_for, glance_past, glance_of, replier_to, plan_for, plan_of, speaker_of};

use crate::one::{does_act, does_reply, is_ranged};
use crate::sets::{Replier, join, search};
use codec::Readings;
use message::Messages;
use node::Node;
use wire::{Address, Refusal};

// A packet as it comes in: whom it is for, the divisor that it is sent at and what it says to either kind of node.
#[derive(Clone, Copy)]
pub struct Incoming {
    pub to: Address,
    pub at: u8,
    pub messages: Messages,
}

// What the look along the chain has seen so far: whether the next node is first or stands behind an addressed one, its bit,
// who acts, who replies, and whether every record is in range.
#[derive(Clone, Copy)]
pub struct Seen {
    pub near: bool,
    pub weight: u32,
    pub acting: u32,
    pub replying: u32,
    pub ranged: bool,
}

// What is to be done with a packet, before any node acts.
#[derive(Clone, Copy)]
pub struct Plan {
    pub replier: Replier,
    pub acting: u32,
    pub messages: Messages,
}

// The plan, or why the packet is refused, and the node that replies, where one does alone.
#[derive(Clone, Copy)]
pub struct Survey {
    pub plan: Result<Plan, Refusal>,
    pub speaker: Option<Node>,
}

// A packet as it comes in, at a divisor, or why it is refused.
#[tactic(auto, unfolding(crate::specs::Survey::receive_of, crate::specs::Delivery::frame_alone))]
pub fn receive(at: u8, p: &[u8]) -> Result<Incoming, Refusal>
    ensures { result ≡ receive_of at p.now }
{
    let framed = packet::frame(p)?;
    // Reading accepts what follows a packet; the chain is handed one at a time.
    if framed.end < p.len() {
        return Err(Refusal::Long);
    }
    let readings = Readings::of(framed.command, packet::data_part(p));
    let messages = Messages::of(
        readings.gate,
        readings.drive,
        framed.address,
        packet::is_intact(p),
    );
    Ok(Incoming {
        to: framed.address,
        at,
        messages,
    })
}

// One node more, of a packet for `to`, at a divisor.
#[tactic(auto, unfolding(crate::specs::Survey::glance_for))]
fn glance_for(seen: Seen, n: Node, at: u8, to: Address) -> Seen
    ensures { result ≡ glance_for at to seen n }
{
    let acts = does_act(n, seen.near, at, to);
    let replies = does_reply(n, seen.near, at, to);
    Seen {
        near: n.addressed,
        weight: seen.weight.wrapping_add(seen.weight),
        acting: join(seen.acting, seen.weight, acts),
        replying: join(seen.replying, seen.weight, replies),
        ranged: seen.ranged & is_ranged(n.settings.place),
    }
}

// One node more, of a packet that is refused: only its record is looked at.
#[tactic(auto, unfolding(crate::specs::Survey::glance_past))]
fn glance_past(seen: Seen, n: Node) -> Seen
    ensures { result ≡ glance_past seen n }
{
    Seen {
        ranged: seen.ranged & is_ranged(n.settings.place),
        ..seen
    }
}

// One node more.
pub fn glance(seen: Seen, n: Node, incoming: Result<Incoming, Refusal>) -> Seen
    ensures { result ≡ glance_of incoming seen n }
{
    match incoming {
        Ok(packet) => glance_for(seen, n, packet.at, packet.to),
        Err(_) => glance_past(seen, n),
    }
}

// Who replies to a packet, of n nodes and those of them that reply.
#[tactic(auto, unfolding(crate::specs::Survey::replier_to))]
fn replier_to(messages: Messages, replying: u32, n: usize) -> Replier
    ensures { result ≡ replier_to messages replying n }
{
    // Hard Reset, which is not answered, reads alike to either kind.
    if messages.gate.is_answered() {
        return search(replying, n);
    }
    Replier::None
}

// A packet that says `messages`, to a table of n nodes that can be used.
pub fn plan_for(messages: Messages, seen: Seen, n: usize) -> Plan
    ensures { result ≡ plan_for messages seen n }
{
    Plan {
        replier: replier_to(messages, seen.replying, n),
        acting: seen.acting,
        messages,
    }
}

// A packet, and all n nodes seen. 6 comes first, then what the packet is refused for.
#[tactic(auto, unfolding(crate::specs::Survey::plan_of))]
pub fn plan_of(incoming: Result<Incoming, Refusal>, seen: Seen, n: usize) -> Result<Plan, Refusal>
    ensures { result ≡ plan_of incoming seen n }
{
    if n < 1 || wire::MOST_NODES < n || !seen.ranged {
        return Err(Refusal::Range);
    }
    let packet = incoming?;
    Ok(plan_for(packet.messages, seen, n))
}

// The index of the node that replies, where one does alone.
pub fn speaker(plan: Result<Plan, Refusal>) -> Option<usize>
    ensures { result ≡ speaker_of plan }
{
    let Ok(plan) = plan else {
        return None;
    };
    match plan.replier {
        Replier::One(i) => Some(i),
        _ => None,
    }
}
