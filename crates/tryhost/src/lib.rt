// The lines of `trials` that try the host, on the one session: 30 power-up, 31 next, 32 ask, 33 a command, 34 regroup, 35 report, 36 silence,
// 37 shows the session, 38 hands in one made by hand, 39 Set Baud Rate.
// Promised: whether a line is of its form, which is asked first, and what its call answers, leaves and makes of the session.
// Left to others: what the calls do (start, walk, host, reports), and how a session is written (state).
#![tactic(auto)]

ghost use Rattle.std.specs.Prelude.{◌≡◌};
ghost use Rattle.wire.specs.Promise.{Promise, Lending};
ghost use Rattle.session.specs.Session.{step_number};
ghost use Rattle.tryhost.specs.Form.{is_ready_order, is_regroup, is_formed, is_sending, is_power_up, is_call};
ghost use Rattle.tryhost.specs.Trying.{with_session, tried_by, tryhost_regroup, tryhost_set_baud_rate, send_of, send_lent, lend_of, tryhost_power_up, handed_in, call_of, show_of, answer_to, attempt_of};

use fields::{
    Answer, MOST_ROOM, are_kinds, byte, filled, is_lending, malformed, nothing, numbered,
    read_kinds, room,
};
use session::{Session, Step};
use state::{is_order, is_state, put_state, read_command, read_state, read_target};
use text::rest;
use wire::{Group, Individual, number};

// What a line makes: its answer, and the session after it.
#[derive(Clone, Copy)]
pub struct Tried {
    pub answer: Answer,
    pub session: Session,
}

// Both in one: a literal of structs so large is dear to check, so it stands here alone.
#[tactic(auto, unfolding(crate::specs::Trying::with_session))]
pub fn with_session(answer: Answer, session: Session) -> Tried
    ensures { result ≡ with_session answer session }
{
    Tried { answer, session }
}

// Whether s is an ORDER of a ready session: every command but Set Address and Set Baud Rate, which have lines of their own.
#[tactic(auto, unfolding(crate::specs::Form::is_ready_order))]
fn is_ready_order(s: &[u8]) -> bool
    ensures { result ≡ is_ready_order s.now }
{
    let role = read_command(s).role();
    is_order(s) && !role.is_placing() && !role.is_pacing()
}

// `k group leader`.
#[tactic(auto, unfolding(crate::specs::Form::is_regroup))]
fn is_regroup(s: &[u8]) -> bool
    ensures { result ≡ is_regroup s.now }
{
    s.len() == 3 && byte(s, 2) < 2
}

// What stands behind the room and the divisor of a call that sends; of Set Baud Rate `group new`.
#[tactic(auto, unfolding(crate::specs::Form::is_formed))]
fn is_formed(kind: u8, s: &[u8]) -> bool
    ensures { result ≡ is_formed kind s.now }
{
    match kind {
        0x31 | 0x32 => s.len() < 1,
        0x33 => is_ready_order(s),
        0x34 => is_regroup(s),
        0x39 => s.len() == 2,
        _ => false,
    }
}

// `room divisor ..`: whether a line is a call that sends, of its form.
#[tactic(auto, unfolding(crate::specs::Form::is_sending))]
fn is_sending(kind: u8, args: &[u8]) -> bool
    ensures { result ≡ is_sending kind args.now }
{
    is_lending(args, 2, MOST_ROOM) && is_formed(kind, rest(args, 2))
}

// `n KIND*n`: as many kinds as n says, whether or not a chain may have so many nodes.
#[tactic(auto, unfolding(crate::specs::Form::is_power_up))]
fn is_power_up(s: &[u8]) -> bool
    ensures { result ≡ is_power_up s.now }
{
    s.len() == 1 + byte(s, 0) as usize && are_kinds(rest(s, 1))
}

// Whether a line is a call that lends nothing, of its form.
#[tactic(auto, unfolding(crate::specs::Form::is_call))]
fn is_call(kind: u8, args: &[u8]) -> bool
    ensures { result ≡ is_call kind args.now }
{
    match kind {
        0x30 => is_power_up(args),
        0x35 => true,
        0x36 => args.len() < 1,
        0x38 => is_state(args),
        _ => false,
    }
}

// What a call makes: its number and the lent buffer.
#[tactic(auto, unfolding(crate::specs::Trying::tried_by))]
fn tried_by(step: Step, lent: &[u8]) -> Tried
    ensures { result ≡ tried_by step lent.now }
{
    with_session(numbered(number(step.end), lent), step.session)
}

// `k group leader`.
fn regroup(s: Session, at: u8, args: &[u8], lent: &mut [u8]) -> Step
    ensures { Lending step_number result lent.new (tryhost_regroup s at args.now lent.old) }
{
    let node = Individual(byte(args, 0));
    let group = Group(byte(args, 1));
    let leader = byte(args, 2) == 1;
    host::regroup(s, at, node, group, leader, lent)
}

// `group new`.
fn set_baud_rate(s: Session, at: u8, args: &[u8], lent: &mut [u8]) -> Step
    ensures { Lending step_number result lent.new (tryhost_set_baud_rate s at args.now lent.old) }
{
    let group = Group(byte(args, 0));
    let divisor = byte(args, 1);
    host::set_baud_rate(s, at, group, divisor, lent)
}

// Makes a call that sends, at its divisor and by what stands behind that.
#[tactic(auto, unfolding(crate::specs::Trying::send_of))]
fn send(s: Session, kind: u8, at: u8, args: &[u8], lent: &mut [u8]) -> Step
    ensures { Lending step_number result lent.new (send_of s kind at args.now lent.old) }
{
    match kind {
        0x31 => walk::next(s, at, lent),
        0x32 => walk::ask(s, at, lent),
        0x33 => host::order(s, at, read_target(args), read_command(args), lent),
        0x34 => regroup(s, at, args, lent),
        _ => set_baud_rate(s, at, args, lent),
    }
}

// Makes it, and shows the lent buffer.
#[tactic(auto, unfolding(crate::specs::Trying::send_lent))]
fn send_lent(s: Session, kind: u8, at: u8, args: &[u8], lent: &mut [u8]) -> Tried
    ensures { result ≡ send_lent s kind at args.now lent.old }
{
    let step = send(s, kind, at, args, lent);
    tried_by(step, lent)
}

// Makes it with the room that its line lends.
#[tactic(auto, unfolding(crate::specs::Trying::lend_of))]
fn lend(s: Session, kind: u8, args: &[u8]) -> Tried
    ensures { result ≡ lend_of s kind args.now }
{
    let mut buffer = filled::<MOST_ROOM>();
    let room = room(args, MOST_ROOM);
    send_lent(s, kind, byte(args, 1), rest(args, 2), &mut buffer[0..room])
}

// `n KIND*n`.
fn power_up(s: Session, args: &[u8]) -> Step
    ensures { Promise step_number result (tryhost_power_up s args.now) }
{
    let kinds = read_kinds(rest(args, 1));
    start::power_up(s, byte(args, 0), kinds)
}

// The session that is handed in.
fn handed_in(args: &[u8]) -> Step
    ensures { Promise step_number result (handed_in args.now) }
{
    let session = read_state(args);
    Step {
        end: Ok(None),
        session,
    }
}

// Makes a call that lends nothing.
#[tactic(auto, unfolding(crate::specs::Trying::call_of))]
fn call(s: Session, kind: u8, args: &[u8]) -> Step
    ensures { Promise step_number result (call_of s kind args.now) }
{
    match kind {
        0x30 => power_up(s, args),
        0x35 => reports::report(s, args),
        0x36 => reports::silence(s),
        _ => handed_in(args),
    }
}

// Nothing: `00 STATE`.
#[tactic(auto, unfolding(crate::specs::Trying::show_of))]
fn show(s: Session, args: &[u8]) -> Answer
    ensures { result ≡ show_of s args.now }
{
    if 0 < args.len() {
        return malformed();
    }
    put_state(nothing().put(wire::DONE), s)
}

// What a line that is no call is answered.
#[tactic(auto, unfolding(crate::specs::Trying::answer_to))]
fn answer_to(s: Session, kind: u8, args: &[u8]) -> Answer
    ensures { result ≡ answer_to s kind args.now }
{
    match kind {
        0x37 => show(s, args),
        _ => malformed(),
    }
}

// What a line of the host's calls makes, by its first byte and those behind it.
#[tactic(auto, unfolding(crate::specs::Trying::attempt_of))]
pub fn attempt(s: Session, kind: u8, args: &[u8]) -> Tried
    ensures { result ≡ attempt_of s kind args.now }
{
    if is_call(kind, args) {
        return tried_by(call(s, kind, args), &[]);
    }
    if is_sending(kind, args) {
        return lend(s, kind, args);
    }
    with_session(answer_to(s, kind, args), s)
}
