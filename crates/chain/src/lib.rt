// The chain as node records side by side in a table that the caller lends.
// Promised: for every lent table, divisor, packet and reply buffer the paper's number, the nodes as the packet leaves them and the one reply; any number but 0 and 13 changes nothing.
// Left to others: who hears, acts and replies (survey), and who keeps the nodes (table).
#![tactic(auto)]

ghost use Rattle.std.specs.Prelude.{◌≡◌};
ghost use Rattle.wire.specs.Promise.{Lending};
ghost use Rattle.survey.specs.Survey.{survey_all};
ghost use Rattle.survey.specs.Decision.{act_all};
ghost use Rattle.survey.specs.Delivery.{deliver_of, delivery_number};

use node::Node;
pub use survey::Delivery;
use survey::{Decided, Incoming, Seen, Survey};
use wire::Refusal;

// A look at every node, in order, and then at the one that replies.
#[tactic(auto, unfolding(survey::specs::Survey::survey_all))]
fn survey_all(table: &[Node], incoming: Result<Incoming, Refusal>) -> Survey
    ensures { result ≡ survey_all incoming table.now }
{
    let mut seen = Seen {
        near: true,
        weight: 1,
        acting: 0,
        replying: 0,
        ranged: true,
    };
    for &n in table {
        seen = survey::glance(seen, n, incoming);
    }
    let plan = survey::plan_of(incoming, seen, table.len());
    let speaker = match survey::speaker(plan) {
        Some(i) => table.get(i).copied(),
        None => None,
    };
    Survey { plan, speaker }
}

// Every node that is to act acts once.
fn act_all(table: &mut [Node], decided: Decided)
    ensures { table.new ≡ act_all decided.messages decided.acting table.old }
{
    let mut rest = decided.acting;
    while let Some(i) = survey::first(rest) {
        if table.len() <= i {
            return;
        }
        // A store for each kind: so the part of the other kind is not copied. By index: with `get_mut` the proof didn't close,
        // since what is stored behind the reference comes back under no name that an answer can cite.
        if table[i].kind.is_gate() {
            table[i] = table[i].take_gate(decided.messages.gate);
        } else {
            table[i] = table[i].take_drive(decided.messages.drive);
        }
        rest = survey::without_first(rest);
    }
}

// A packet to the chain, sent at a divisor. 6 comes first, then 1, 2 and 3 as the packet is read, then 5, before any node acts.
pub fn deliver(
    table: &mut [Node],
    at: u8,
    packet: &[u8],
    reply: &mut [u8],
) -> Result<Delivery, Refusal>
    ensures { Lending delivery_number result (record { nodes = table.new; reply = reply.new }) (deliver_of table.old at packet.now reply.old) }
{
    let incoming = survey::receive(at, packet);
    let decided = survey::decide(survey_all(table, incoming), reply);
    act_all(table, decided);
    decided.answer
}
