// The walk: the host gives the nodes their addresses, one after another.
// Promised: the refusals in the paper's sequence, else "next" sends Set Address to 0x00, or "ask" a Nop to the new address; any number but 0 changes nothing.
// Left to others: how a walk starts (start), what an answer makes of it (reports), how long to wait for one (the caller).
#![tactic(auto)]

ghost use Rattle.std.specs.Prelude.{◌≡◌};
ghost use Rattle.wire.specs.Numbers.{number_by};
ghost use Rattle.wire.specs.Promise.{Promise, Lending};
ghost use Rattle.session.specs.Session.{step_number};
ghost use Rattle.walk.specs.Walk.{walk_tests, next_check, ask_check, next_of, ask_of};

use command::Command;
use node::Node;
use sending::{Tests, test, transmit};
use session::{Session, Step, given_place, is_ask_due, refuse};
use wire::{Address, Individual, Refusal};

// What both calls look for: 18, and whether they are due.
fn walk_tests(s: Session, at: u8, undue: bool) -> Tests
    ensures { result ≡ walk_tests s at undue }
{
    Tests {
        unranged: false,
        unlisted: ledger::is_off_list(s.entries, s.n, at),
        stray: false,
        lacked: false,
        undue,
        led: false,
        answerable: false,
    }
}

// 9 where the walk has ended, or "ask" is due instead.
#[tactic(auto, unfolding(crate::specs::Walk::next_check))]
fn next_check(s: Session, at: u8) -> Result<(), Refusal>
    ensures { Promise number_by result (next_check s at) }
{
    test(s, walk_tests(s, at, s.n <= s.walk || is_ask_due(s)))
}

// 9 where the walk has ended, or nothing is unconfirmed.
#[tactic(auto, unfolding(crate::specs::Walk::ask_check))]
fn ask_check(s: Session, at: u8) -> Result<(), Refusal>
    ensures { Promise number_by result (ask_check s at) }
{
    test(s, walk_tests(s, at, s.n <= s.walk || !is_ask_due(s)))
}

// Set Address, at a divisor, to the address of power-up, 0x00, with the next address of 1, 2, .. n.
#[tactic(auto, unfolding(crate::specs::Walk::next_of))]
pub fn next(s: Session, at: u8, out: &mut [u8]) -> Step
    ensures { Lending step_number result out.new (next_of s at out.old) }
{
    match next_check(s, at) {
        // A step, and no Result: a refusal hands the session back, which `?` can't.
        Err(why) => refuse(s, why),
        Ok(()) => {
            let k = s.walk + 1;
            let c = Command::SetAddress(given_place(k));
            transmit(
                s,
                at,
                Address::Individual(Individual(Node::ADDRESS)),
                Address::Individual(Individual(k)),
                c,
                out,
            )
        }
    }
}

// Where the last Set Address is unconfirmed: a Nop to the address that it gave.
#[tactic(auto, unfolding(crate::specs::Walk::ask_of))]
pub fn ask(s: Session, at: u8, out: &mut [u8]) -> Step
    ensures { Lending step_number result out.new (ask_of s at out.old) }
{
    match ask_check(s, at) {
        // A step, and no Result: a refusal hands the session back, which `?` can't.
        Err(why) => refuse(s, why),
        Ok(()) => {
            let to = Address::Individual(Individual(s.walk + 1));
            transmit(s, at, to, to, Command::Nop, out)
        }
    }
}
