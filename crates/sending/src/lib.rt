// What every call that sends does: first it tests the session and what it was asked for, last it builds its packet.
// Promised: one sequence of tests for all calls, and the first refusal wins; the packet at the start of the lent buffer and its exchange opened, or the builder's refusal and nothing else.
// Left to others: which command goes where, with the refusals of its own (walk, host); the bytes on the line (the caller).
#![tactic(auto)]

ghost use Rattle.std.specs.Prelude.{◌≡◌};
ghost use Rattle.wire.specs.Numbers.{number_by};
ghost use Rattle.wire.specs.Promise.{Promise, Lending};
ghost use Rattle.session.specs.Session.{step_number};
ghost use Rattle.sending.specs.Sending.{refuse_if, does_wait, is_waiting, test_of, open_exchange, transmit_of};

use command::Command;
use session::{Exchange, Session, Step, is_closed, refuse};
use wire::{Address, Refusal};

fn does_wait(x: Exchange) -> bool
    ensures { result ≡ does_wait x }
{
    matches!(x, Exchange::Waiting { .. })
}

// Whether an exchange is open; a closed session has none.
#[tactic(auto, unfolding(crate::specs::Sending::is_waiting))]
fn is_waiting(s: Session) -> bool
    ensures { result ≡ is_waiting s }
{
    !is_closed(s) && does_wait(s.exchange)
}

// What a call finds wrong with what it was asked for, by the numbers that it is refused with; what a call doesn't ask is false.
#[derive(Clone, Copy)]
pub struct Tests {
    // 6
    pub unranged: bool,
    // 18
    pub unlisted: bool,
    // 10
    pub stray: bool,
    // 17
    pub lacked: bool,
    // 9
    pub undue: bool,
    // 11
    pub led: bool,
    // 19
    pub answerable: bool,
}

// The one sequence of all calls that send: 12, 7, 6, 18, 10, 17, 9, 11, 19. 5 comes last, as the packet is built.
pub fn test(s: Session, t: Tests) -> Result<(), Refusal>
    ensures { Promise number_by result (test_of s t) }
{
    let sequence = [
        (is_closed(s), Refusal::Closed),
        (is_waiting(s), Refusal::Busy),
        (t.unranged, Refusal::Range),
        (t.unlisted, Refusal::Divisor),
        (t.stray, Refusal::NoNode),
        (t.lacked, Refusal::Lacked),
        (t.undue, Refusal::NotDue),
        (t.led, Refusal::Led),
        (t.answerable, Refusal::Answerable),
    ];
    for (fails, why) in sequence {
        if fails {
            return Err(why);
        }
    }
    Ok(())
}

// The session with a command on the line: Hard Reset closes it and opens no exchange, any other command waits.
#[tactic(auto, unfolding(crate::specs::Sending::open_exchange))]
fn open_exchange(s: Session, at: u8, to: Address, c: Command) -> Session
    ensures { result ≡ open_exchange s at to c }
{
    if c.role().is_reset() {
        return Session {
            started: false,
            exchange: Exchange::Idle,
            entries: ledger::forget(s.entries),
            ..s
        };
    }
    Session {
        exchange: Exchange::Waiting { at, to, command: c },
        ..s
    }
}

// Sends a command at a divisor to the address `called`, for the node or group `to`; 6 and 5 as building gives them. The session is tested by the caller.
#[tactic(auto, unfolding(crate::specs::Sending::transmit_of))]
pub fn transmit(
    s: Session,
    at: u8,
    called: Address,
    to: Address,
    c: Command,
    out: &mut [u8],
) -> Step
    ensures { Lending step_number result out.new (transmit_of s at called to c out.old) }
{
    match codec::build(called, c, out) {
        Ok(n) => Step {
            end: Ok(Some(n)),
            session: open_exchange(s, at, to, c),
        },
        Err(why) => refuse(s, why),
    }
}
