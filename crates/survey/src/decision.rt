// What a delivery comes to, and who then acts.
ghost use Rattle.std.specs.Prelude.{◌≡◌};
ghost use Rattle.survey.specs.Delivery.{delivery_number};
ghost use Rattle.survey.specs.Decision.{is_idle, does_touch, touched_of, decide_refusal, decide_answer, decide_one, decide_by, decide_of};

use crate::plan::{Plan, Survey};
use crate::sets::Replier;
use command::Role;
use message::{Message, Messages};
use node::Node;
use wire::Refusal;

// What a packet to the chain comes to, where it is not refused: nobody replied; one node did, with so many bytes; several did at once.
#[derive(Clone, Copy)]
pub enum Delivery {
    Silent,
    Replied(usize),
    Collision,
}

impl Delivery {
    // The paper's number of what a packet comes to, or of its refusal.
    pub fn number(answer: Result<Delivery, Refusal>) -> u8
        ensures { result ≡ delivery_number answer }
    {
        match answer {
            Ok(Delivery::Silent | Delivery::Replied(_)) => wire::DONE,
            Ok(Delivery::Collision) => wire::COLLISION,
            Err(why) => why.number(),
        }
    }
}

// The answer, who is to be gone through, and what the packet says to either kind.
// No `Result` of the whole: that nobody acts where the answer is a refusal is a promise of its own (must-fail/five_after_acting).
#[derive(Clone, Copy)]
pub struct Decided {
    pub answer: Result<Delivery, Refusal>,
    pub acting: u32,
    pub messages: Messages,
}

// Whether a command changes nothing in any node.
fn is_idle(role: Role) -> bool
    ensures { result ≡ is_idle role }
{
    matches!(role, Role::Masks(_) | Role::Idles)
}

// Whether a packet may change a node of the kind that it says this to.
fn does_touch(message: Message) -> bool
    ensures { result ≡ does_touch message }
{
    match message {
        Message::Intact(c) => !is_idle(c.role()),
        Message::Other | Message::Spoilt => false,
    }
}

// Of those that act, those that are to be gone through: none, where the packet changes no node.
#[tactic(auto, unfolding(crate::specs::Decision::touched_of))]
fn touched(messages: Messages, acting: u32) -> u32
    ensures { result ≡ touched_of messages acting }
{
    if does_touch(messages.gate) || does_touch(messages.drive) {
        return acting;
    }
    0
}

// A refusal: nobody acts.
fn decide_refusal(why: Refusal) -> Decided
    ensures { result ≡ decide_refusal why }
{
    Decided {
        answer: Err(why),
        acting: 0,
        messages: Messages {
            gate: Message::Other,
            drive: Message::Other,
        },
    }
}

// No refusal: those that are to act do.
fn decide_answer(answer: Delivery, plan: Plan) -> Decided
    ensures { result ≡ decide_answer answer plan }
{
    Decided {
        answer: Ok(answer),
        acting: touched(plan.messages, plan.acting),
        messages: plan.messages,
    }
}

// One node replies, to what the packet says to its kind: 5 where its reply has no room, before any node acts.
#[tactic(auto, unfolding(crate::specs::Decision::decide_one))]
fn decide_one(speaker: Node, plan: Plan, reply: &mut [u8]) -> Decided
    ensures { record { answer = result; left = reply.new } ≡ decide_one speaker plan reply.old }
{
    match reply::reply(speaker, plan.messages.to(speaker.kind), reply) {
        Ok(n) => decide_answer(Delivery::Replied(n), plan),
        Err(no_room) => decide_refusal(no_room),
    }
}

// By who replies.
fn decide_by(plan: Plan, speaker: Option<Node>, reply: &mut [u8]) -> Decided
    ensures { record { answer = result; left = reply.new } ≡ decide_by plan.replier speaker plan reply.old }
{
    match (plan.replier, speaker) {
        (Replier::Several, _) => decide_answer(Delivery::Collision, plan),
        (Replier::One(_), Some(node)) => decide_one(node, plan, reply),
        _ => decide_answer(Delivery::Silent, plan),
    }
}

// The one reply is written, if there is one and it has room.
pub fn decide(survey: Survey, reply: &mut [u8]) -> Decided
    ensures { record { answer = result; left = reply.new } ≡ decide_of survey reply.old }
{
    match survey.plan {
        Ok(plan) => decide_by(plan, survey.speaker, reply),
        Err(why) => decide_refusal(why),
    }
}
