// EXCHANGE: `00`, or `01 divisor ORDER`, the divisor being the one that the order was sent at.
ghost use Rattle.std.specs.Prelude.{◌≡◌};
ghost use Rattle.state.specs.Exchange.{exchange_length, is_exchange, read_exchange, put_exchange};

use crate::order::{data_count, is_order, put_order, read_command, read_target};
use fields::{Answer, byte};
use session::Exchange;
use text::rest;

// How many bytes the EXCHANGE at the start of s has.
#[tactic(auto, unfolding(crate::specs::Exchange::exchange_length))]
pub(crate) fn exchange_length(s: &[u8]) -> usize
    ensures { result ≡ exchange_length s.now }
{
    if byte(s, 0) < 1 {
        return 1;
    }
    6 + data_count(rest(s, 2)) as usize
}

// Whether s is an EXCHANGE.
#[tactic(auto, unfolding(crate::specs::Exchange::is_exchange))]
pub(crate) fn is_exchange(s: &[u8]) -> bool
    ensures { result ≡ is_exchange s.now }
{
    match byte(s, 0) {
        0 => true,
        1 => is_order(rest(s, 2)),
        _ => false,
    }
}

// EXCHANGE.
#[tactic(auto, unfolding(crate::specs::Exchange::read_exchange))]
pub(crate) fn read_exchange(s: &[u8]) -> Exchange
    ensures { result ≡ read_exchange s.now }
{
    if byte(s, 0) < 1 {
        return Exchange::Idle;
    }
    let order = rest(s, 2);
    Exchange::Waiting {
        at: byte(s, 1),
        to: read_target(order),
        command: read_command(order),
    }
}

// With EXCHANGE more.
pub(crate) fn put_exchange(a: Answer, x: Exchange) -> Answer
    ensures { result ≡ put_exchange a x }
{
    match x {
        Exchange::Idle => a.put(0),
        Exchange::Waiting { at, to, command } => put_order(a.put(1).put(at), to, command),
    }
}
