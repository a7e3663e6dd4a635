// The calls of a ready session: a command to a node or a group, a node in another group, and another divisor for a group.
// Promised: the refusals in the paper's sequence, else the packet at the start of the lent buffer and its exchange opened; any number but 0 changes nothing.
// Left to others: how a session becomes ready (start, walk), how long to wait for a reply (the caller), and what it comes to (reports).
#![tactic(auto)]

ghost use Rattle.std.specs.Prelude.{◌≡◌};
ghost use Rattle.wire.specs.Numbers.{number_by};
ghost use Rattle.wire.specs.Promise.{Promise, Lending};
ghost use Rattle.session.specs.Session.{step_number};
ghost use Rattle.host.specs.Calls.{is_bad_group, is_unranged, has_rival, order_check, regroup_check, baud_rate_check, order_of, regroup_of, set_baud_rate_of};

use command::{Command, Place};
use sending::{Tests, test, transmit};
use session::{Session, Step, off_chain, refuse};
use wire::{Address, Group, Individual, Refusal};

// 6: a group below 0x80.
fn is_bad_group(to: Address) -> bool
    ensures { result ≡ is_bad_group to }
{
    match to {
        Address::Individual(_) => false,
        Address::Group(g) => !g.in_range(),
    }
}

// A command of its own range that no other call sends, and a group of its range.
fn is_unranged(to: Address, c: Command) -> bool
    ensures { result ≡ is_unranged to c }
{
    let role = c.role();
    role.is_placing() || role.is_pacing() || !c.fits() || is_bad_group(to)
}

// 6, 18, 10, 17, 9.
#[tactic(auto, unfolding(crate::specs::Calls::order_check))]
fn order_check(s: Session, at: u8, to: Address, c: Command) -> Result<(), Refusal>
    ensures { Promise number_by result (order_check s at to c) }
{
    test(
        s,
        Tests {
            unranged: is_unranged(to, c),
            unlisted: ledger::is_off_list(s.entries, s.n, at),
            stray: off_chain(s.n, to),
            lacked: ledger::is_lacked(s.entries, s.n, to, c),
            undue: s.walk < s.n,
            led: false,
            answerable: false,
        },
    )
}

// 11: a leader wish, while another node leads that group or has its place in doubt.
#[tactic(auto, unfolding(crate::specs::Calls::has_rival))]
fn has_rival(s: Session, node: Individual, group: Group, leader: bool) -> bool
    ensures { result ≡ has_rival s node group leader }
{
    leader && ledger::is_led(s.entries, s.n, node.0, group)
}

// 6, 18, 10, 9, 11.
#[tactic(auto, unfolding(crate::specs::Calls::regroup_check))]
fn regroup_check(
    s: Session,
    at: u8,
    node: Individual,
    group: Group,
    leader: bool,
) -> Result<(), Refusal>
    ensures { Promise number_by result (regroup_check s at node group leader) }
{
    test(
        s,
        Tests {
            unranged: !group.in_range(),
            unlisted: ledger::is_off_list(s.entries, s.n, at),
            stray: off_chain(s.n, Address::Individual(node)),
            lacked: false,
            undue: s.walk < s.n,
            led: has_rival(s, node, group, leader),
            answerable: false,
        },
    )
}

// 6, 18 for both divisors, 9, 19: a known member leads the group, or a place is in doubt. No node is 0, so it is nobody's rival that is looked for.
#[tactic(auto, unfolding(crate::specs::Calls::baud_rate_check))]
fn baud_rate_check(s: Session, at: u8, group: Group, divisor: u8) -> Result<(), Refusal>
    ensures { Promise number_by result (baud_rate_check s at group divisor) }
{
    let sent_at = ledger::is_off_list(s.entries, s.n, at);
    let set = ledger::is_off_list(s.entries, s.n, divisor);
    test(
        s,
        Tests {
            unranged: !group.in_range(),
            unlisted: sent_at || set,
            stray: false,
            lacked: false,
            undue: s.walk < s.n,
            led: false,
            answerable: ledger::is_led(s.entries, s.n, 0, group),
        },
    )
}

// A command of a ready session to a node or a group, sent at a divisor. Set Address and Set Baud Rate are refused with 6: they have calls of their own.
#[tactic(auto, unfolding(crate::specs::Calls::order_of))]
pub fn order(s: Session, at: u8, to: Address, c: Command, out: &mut [u8]) -> Step
    ensures { Lending step_number result out.new (order_of s at to c out.old) }
{
    match order_check(s, at, to, c) {
        // A step, and no Result: a refusal hands the session back, which `?` can't.
        Err(why) => refuse(s, why),
        Ok(()) => transmit(s, at, to, to, c, out),
    }
}

// Set Address to a node of a ready session, with its own address, a group and a leader wish.
#[tactic(auto, unfolding(crate::specs::Calls::regroup_of))]
pub fn regroup(
    s: Session,
    at: u8,
    node: Individual,
    group: Group,
    leader: bool,
    out: &mut [u8],
) -> Step
    ensures { Lending step_number result out.new (regroup_of s at node group leader out.old) }
{
    match regroup_check(s, at, node, group, leader) {
        // A step, and no Result: a refusal hands the session back, which `?` can't.
        Err(why) => refuse(s, why),
        Ok(()) => {
            let to = Address::Individual(node);
            let place = Place {
                address: node,
                group,
                leader,
            };
            transmit(s, at, to, to, Command::SetAddress(place), out)
        }
    }
}

// Set Baud Rate to a group of a ready session, sent at one divisor and setting another. Nobody is to answer it: report silence, and then ask each node by a Nop at the new divisor.
#[tactic(auto, unfolding(crate::specs::Calls::set_baud_rate_of))]
pub fn set_baud_rate(s: Session, at: u8, group: Group, divisor: u8, out: &mut [u8]) -> Step
    ensures { Lending step_number result out.new (set_baud_rate_of s at group divisor out.old) }
{
    match baud_rate_check(s, at, group, divisor) {
        // A step, and no Result: a refusal hands the session back, which `?` can't.
        Err(why) => refuse(s, why),
        Ok(()) => {
            let to = Address::Group(group);
            transmit(s, at, to, to, Command::SetBaudRate(divisor), out)
        }
    }
}
