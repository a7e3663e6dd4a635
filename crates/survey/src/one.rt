// One node of the chain and a packet, by what every node has: its place, its divisor and whether it is addressed.
// Tests are joined by & and |, so that a look at a node does not branch.
ghost use Rattle.std.specs.Prelude.{◌≡◌};
ghost use Rattle.survey.specs.One.{does_hear, is_meant, is_answering, does_act, does_reply, is_ranged};

use command::Place;
use node::Node;
use wire::Address;

// Near: the node is first, or the node before it is addressed. At: the divisor that the packet is sent at.
fn does_hear(n: Node, near: bool, at: u8) -> bool
    ensures { result ≡ does_hear at near n }
{
    (near | n.addressed) & (n.settings.divisor == at)
}

// The address is the node's individual one, or its group.
fn is_meant(place: Place, to: Address) -> bool
    ensures { result ≡ is_meant to place }
{
    match to {
        Address::Individual(i) => i.0 == place.address.0,
        Address::Group(g) => g.0 == place.group.0,
    }
}

// The address is the node's individual one, or that of a group that it leads.
fn is_answering(place: Place, to: Address) -> bool
    ensures { result ≡ is_answering to place }
{
    match to {
        Address::Individual(i) => i.0 == place.address.0,
        Address::Group(g) => place.leader & (g.0 == place.group.0),
    }
}

// The record's addresses are of their ranges.
#[tactic(auto, unfolding(crate::specs::One::is_ranged))]
pub(crate) fn is_ranged(place: Place) -> bool
    ensures { result ≡ is_ranged place }
{
    place.address.in_range() & place.group.in_range()
}

// Whether the node acts on a packet.
#[tactic(auto, unfolding(crate::specs::One::does_act))]
pub(crate) fn does_act(n: Node, near: bool, at: u8, to: Address) -> bool
    ensures { result ≡ does_act at to near n }
{
    does_hear(n, near, at) & is_meant(n.settings.place, to)
}

// Whether the node replies to a packet that is answered.
#[tactic(auto, unfolding(crate::specs::One::does_reply))]
pub(crate) fn does_reply(n: Node, near: bool, at: u8, to: Address) -> bool
    ensures { result ≡ does_reply at to near n }
{
    does_hear(n, near, at) & is_answering(n.settings.place, to)
}
