// Reporting: an open exchange is closed by what was received, or by silence.
// Promised: the record after it, node by node, and the walk; 8 where no exchange is open.
// Left to others: when silence is silence (the caller).
#![tactic(auto)]

ghost use Rattle.std.specs.Prelude.{◌≡◌};
ghost use Rattle.wire.specs.Promise.{Promise};
ghost use Rattle.session.specs.Session.{step_number};
ghost use Rattle.status.specs.declared.Answer.TheVariants.{Silent};
ghost use Rattle.reports.specs.Report.{is_on_walk, is_giving, is_asking, idle_at, noted_of, is_telling, told_of, conclude_of, finish_of, silence_of, report_of};

use command::Command;
use entry::Entry;
use session::{Exchange, Session, Step, given_place, is_ask_due, is_closed, refuse};
use status::Answer;
use wire::{Address, MOST_NODES, Refusal};

// Whether an exchange is about the node to which the walk gives its next address.
fn is_on_walk(s: Session, to: Address) -> bool
    ensures { result ≡ is_on_walk s to }
{
    match to {
        Address::Individual(i) => s.walk < s.n && i.0 == s.walk + 1,
        Address::Group(_) => false,
    }
}

// The walk's Set Address waits.
#[tactic(auto, unfolding(crate::specs::Report::is_giving))]
fn is_giving(s: Session, to: Address, c: Command) -> bool
    ensures { result ≡ is_giving s to c }
{
    is_on_walk(s, to) && c.role().is_placing()
}

// The walk's "ask" waits.
#[tactic(auto, unfolding(crate::specs::Report::is_asking))]
fn is_asking(s: Session, to: Address, c: Command) -> bool
    ensures { result ≡ is_asking s to c }
{
    is_on_walk(s, to) && c.role().is_nop() && is_ask_due(s)
}

// The session with no exchange open, at a step of the walk, with a record.
// Made here alone, since a literal of the whole session is the costly part of a check.
fn idle_at(s: Session, walk: u8, entries: [Entry; MOST_NODES]) -> Session
    ensures { result ≡ idle_at s walk entries }
{
    Session {
        walk,
        exchange: Exchange::Idle,
        entries,
        ..s
    }
}

// The session with the answer noted to its exchange, a command to an address.
#[tactic(auto, unfolding(crate::specs::Report::noted_of))]
fn noted(s: Session, to: Address, c: Command, answer: Answer) -> Session
    ensures { result ≡ noted_of s to c answer }
{
    // Taken out once: read from the session at each call, it has a place in the frame for each.
    let entries = s.entries;
    match answer {
        Answer::Marked => idle_at(s, s.walk, entries),
        Answer::Silent => {
            let doubted = ledger::settle(entries, s.n, to, c, Answer::Silent);
            idle_at(s, s.walk, doubted)
        }
        Answer::Clear => {
            if is_giving(s, to, c) {
                let given = ledger::settle(entries, s.n, to, c, Answer::Clear);
                return idle_at(s, s.walk + 1, given);
            }
            if is_asking(s, to, c) {
                let asked = Command::SetAddress(given_place(s.walk + 1));
                let given = ledger::settle(entries, s.n, to, asked, Answer::Clear);
                return idle_at(s, s.walk + 1, given);
            }
            let noted = ledger::settle(entries, s.n, to, c, Answer::Clear);
            idle_at(s, s.walk, noted)
        }
    }
}

// A Nop to a node: its good clear reply tells that the node hears at the divisor that it was sent at.
fn is_telling(to: Address, c: Command) -> bool
    ensures { result ≡ is_telling to c }
{
    match to {
        Address::Individual(_) => c.role().is_nop(),
        Address::Group(_) => false,
    }
}

// The session with that divisor known of the node: as a Set Baud Rate of it, confirmed.
fn told(s: Session, at: u8, to: Address) -> Session
    ensures { result ≡ told_of s at to }
{
    let entries = s.entries;
    let heard = ledger::settle(entries, s.n, to, Command::SetBaudRate(at), Answer::Clear);
    idle_at(s, s.walk, heard)
}

// The session once its exchange, a command sent at a divisor to an address, is answered.
#[tactic(auto, unfolding(crate::specs::Report::conclude_of))]
fn conclude(s: Session, at: u8, to: Address, c: Command, answer: Answer) -> Session
    ensures { result ≡ conclude_of s at to c answer }
{
    let after = noted(s, to, c, answer);
    match answer {
        Answer::Clear if is_telling(to, c) => told(after, at, to),
        _ => after,
    }
}

// The end of the open exchange; 8 where there is none. A closed session has none.
#[tactic(auto, unfolding(crate::specs::Report::finish_of))]
fn finish(s: Session, answer: Answer) -> Step
    ensures { Promise step_number result (finish_of s answer) }
{
    match s.exchange {
        Exchange::Waiting { at, to, command } if !is_closed(s) => Step {
            end: Ok(None),
            session: conclude(s, at, to, command, answer),
        },
        _ => refuse(s, Refusal::Idle),
    }
}

// Closes the open exchange by the bytes received.
#[tactic(auto, unfolding(crate::specs::Report::report_of))]
pub fn report(s: Session, bytes: &[u8]) -> Step
    ensures { Promise step_number result (report_of s bytes.now) }
{
    finish(s, status::judge(bytes))
}

// Closes the open exchange by silence.
pub fn silence(s: Session) -> Step
    ensures { Promise step_number result (silence_of s) }
{
    finish(s, Answer::Silent)
}
