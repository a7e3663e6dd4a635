// STATE, the host's session as the lines of `trials` show it and hand it in: open, n, walk, EXCHANGE, ENTRY*31.
// In it, and in a line of its own, ORDER: a command with whom it is for.
// Promised: which bytes are a STATE or an ORDER, what each reads as, and the bytes that show it.
// Left to others: which lines have them (tryhost), and the entries (layout).
#![tactic(auto)]

mod exchange;
mod order;

ghost use Rattle.std.specs.Prelude.{◌≡◌};
ghost use Rattle.state.specs.State.{is_state, read_state, put_state};

use exchange::{exchange_length, is_exchange, put_exchange, read_exchange};
use fields::{Answer, byte};
use layout::{are_entries, put_entries, read_entries};
pub use order::{is_order, read_command, read_target};
use session::Session;
use text::{first, rest};

// Whether s is a STATE.
#[tactic(auto, unfolding(crate::specs::State::is_state))]
pub fn is_state(s: &[u8]) -> bool
    ensures { result ≡ is_state s.now }
{
    let behind = rest(s, 3);
    let length = exchange_length(behind);
    byte(s, 0) < 2 && is_exchange(first(behind, length)) && are_entries(rest(behind, length))
}

// The session of a STATE.
#[tactic(auto, unfolding(crate::specs::State::read_state))]
pub fn read_state(s: &[u8]) -> Session
    ensures { result ≡ read_state s.now }
{
    let started = byte(s, 0) == 1;
    let n = byte(s, 1);
    let walk = byte(s, 2);
    let behind = rest(s, 3);
    let length = exchange_length(behind);
    let exchange = read_exchange(first(behind, length));
    let entries = read_entries(rest(behind, length));
    Session {
        started,
        n,
        walk,
        exchange,
        entries,
    }
}

// With STATE more.
#[tactic(auto, unfolding(crate::specs::State::put_state))]
pub fn put_state(a: Answer, s: Session) -> Answer
    ensures { result ≡ put_state a s }
{
    let a = a.put_flag(s.started).put(s.n).put(s.walk);
    put_entries(put_exchange(a, s.exchange), s.entries)
}
