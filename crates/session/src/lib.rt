// The host's session by value: what it shows, and what the calls and the reports both ask of it.
// Promised: a look at a node; which sessions count as closed; the place that the walk gives.
// Left to others: how one starts (start), sending (sending, walk, host), and closing an exchange (reports).
#![tactic(auto)]

ghost use Rattle.std.specs.Prelude.{◌≡◌};
ghost use Rattle.wire.specs.Numbers.{number_by};
ghost use Rattle.wire.specs.Promise.{Promise};
ghost use Rattle.session.specs.Session.{step_number, refuse_of, off_chain, is_stray, is_valid, is_closed, given_place, is_ask_due, look_of};

use command::{Command, Place};
use entry::Entry;
use node::Node;
use wire::{Address, Group, Individual, MOST_NODES, Refusal};

// What waits for an answer: nothing, or a command that was sent at a divisor to an address. The walk's Set Address has the node that it gives its number.
#[derive(Clone, Copy)]
pub enum Exchange {
    Idle,
    Waiting {
        at: u8,
        to: Address,
        command: Command,
    },
}

#[derive(Clone, Copy)]
pub struct Session {
    pub started: bool,
    pub n: u8,
    pub walk: u8,
    pub exchange: Exchange,
    pub entries: [Entry; MOST_NODES],
}

// How a call ends: refused, or done, and sent as so many bytes if it sends.
pub type End = Result<Option<usize>, Refusal>;

// The session after a call; of a refused one, the session as it was handed in.
#[derive(Clone, Copy)]
pub struct Step {
    pub end: End,
    pub session: Session,
}

// A refused call gives back the session as it was handed in.
pub fn refuse(s: Session, why: Refusal) -> Step
    ensures { Promise step_number result (refuse_of s why) }
{
    Step {
        end: Err(why),
        session: s,
    }
}

// Whether an address is a node that is not 1 to n.
pub fn off_chain(n: u8, to: Address) -> bool
    ensures { result ≡ off_chain n to }
{
    match to {
        Address::Individual(i) => i.0 < 1 || n < i.0,
        Address::Group(_) => false,
    }
}

// Whether an exchange waits on a node that is not 1 to n.
fn is_stray(n: u8, x: Exchange) -> bool
    ensures { result ≡ is_stray n x }
{
    match x {
        Exchange::Idle => false,
        Exchange::Waiting { to, .. } => off_chain(n, to),
    }
}

// Within its bounds; a session handed in that is not counts as closed with no exchange open.
#[tactic(auto, unfolding(crate::specs::Session::is_valid))]
fn is_valid(s: Session) -> bool
    ensures { result ≡ is_valid s }
{
    s.n as usize <= MOST_NODES && s.walk <= s.n && !is_stray(s.n, s.exchange)
}

// The entry of a node 1 to n, of any session: also a closed one shows its last known values.
#[tactic(auto, unfolding(crate::specs::Session::look_of))]
pub fn look(s: Session, node: Individual) -> Result<Entry, Refusal>
    ensures { Promise number_by result (look_of s node) }
{
    let k = node.0;
    if k < 1 || s.n < k || MOST_NODES < k as usize {
        return Err(Refusal::NoNode);
    }
    Ok(s.entries[(k - 1) as usize])
}

// Not started, or handed in past its bounds.
#[tactic(auto, unfolding(crate::specs::Session::is_closed))]
pub fn is_closed(s: Session) -> bool
    ensures { result ≡ is_closed s }
{
    !is_valid(s) || !s.started
}

// The place that the walk gives to node k: its number, and the rest as at power-up.
pub fn given_place(k: u8) -> Place
    ensures { result ≡ given_place k }
{
    Place {
        address: Individual(k),
        group: Group(Node::GROUP),
        leader: Node::LEADER,
    }
}

// Whether the walk's next node has its place in doubt, so that "ask" is due and "next" is not.
// The first test keeps the index within the record: behind the last of the most nodes there is no next one.
#[tactic(auto, unfolding(crate::specs::Session::is_ask_due))]
pub fn is_ask_due(s: Session) -> bool
    ensures { result ≡ is_ask_due s }
{
    let at = s.walk as usize;
    at < MOST_NODES && !s.entries[at].known.place
}
