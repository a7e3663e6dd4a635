// How a session starts.
// Promised: a fresh session, and power-up with n nodes of the kinds told, at any time.
// Left to others: the walk, which gives the nodes their addresses (walk).
#![tactic(auto)]

ghost use Rattle.std.specs.Prelude.{◌≡◌};
ghost use Rattle.wire.specs.Promise.{Promise};
ghost use Rattle.session.specs.Session.{step_number};
ghost use Rattle.start.specs.Start.{fresh_of, start_power_up};

use session::{Exchange, Session, Step, refuse};
use wire::{Kind, MOST_NODES, Refusal};

// A session that is closed and has no nodes.
#[tactic(auto, using(ledger::proofs::Ledgers::none_up))]
pub fn fresh() -> Session
    ensures { result ≡ fresh_of }
{
    Session {
        started: false,
        n: 0,
        walk: 0,
        exchange: Exchange::Idle,
        entries: ledger::power_up(0, [Kind::Gate; MOST_NODES]),
    }
}

// Starts a session of n nodes, at any time; an open exchange is dropped. The first n kinds are those of nodes 1 to n, the others are not looked at.
#[tactic(auto, unfolding(crate::specs::Start::start_power_up))]
pub fn power_up(s: Session, n: u8, kinds: [Kind; MOST_NODES]) -> Step
    ensures { Promise step_number result (start_power_up s n kinds) }
{
    if n < 1 || MOST_NODES < n as usize {
        return refuse(s, Refusal::Range);
    }
    Step {
        end: Ok(None),
        session: Session {
            started: true,
            n,
            walk: 0,
            exchange: Exchange::Idle,
            entries: ledger::power_up(n, kinds),
        },
    }
}
