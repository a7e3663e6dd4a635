// The host's record of all nodes: 31 entries, of which those of nodes 1 to n are told of every exchange.
// Promised: nodes 1 to n of the kinds told; node by node what its entry makes of the exchange; who stands in a leader's way; whose kind lacks a command; whose manual lists a divisor.
// Left to others: which command waits, and how far the walk is (session, reports).
#![tactic(auto)]

ghost use Rattle.std.specs.Prelude.{◌≡◌, ℕ, Bool};
ghost use Rattle.entry.specs.declared.Entry.{Entry};
ghost use Rattle.ledger.specs.Ledger.{ledger_power_up, ledger_least, group_reach, reach_by, reach_of, settle_of, forget_of, is_rival, any_from, is_led, does_lack, is_lacked, lacks_divisor, is_unlisted, is_off_list};

use command::{Command, Place};
use entry::{Entry, Reach};
use status::Answer;
use wire::{Address, Group, Kind, MOST_NODES};

// At power-up: nodes 1 to n are of the kinds told, the first of them node 1's; beyond n all are gates.
pub fn power_up(n: u8, kinds: [Kind; MOST_NODES]) -> [Entry; MOST_NODES]
    ensures { result ≡ ledger_power_up n kinds }
{
    let told = least(n);
    let mut all = [Entry::power_up(Kind::Gate); MOST_NODES];
    for i in 0..told {
        all[i] = Entry::power_up(kinds[i]);
    }
    all
}

// n, or 31 where n is more: how many entries n counts.
// So a loop stays within the record, for every n.
#[tactic(auto, unfolding(crate::specs::Ledger::ledger_least))]
fn least(n: u8) -> usize
    ensures { result ≡ ledger_least n }
{
    MOST_NODES.min(n as usize)
}

// What a command to a group is to a node, by its place, if that is known.
// A reply is the leader's: the group's other members may have missed the command.
fn group_reach(g: Group, known: bool, place: Place) -> Reach
    ensures { result ≡ group_reach g known place }
{
    if !known {
        return Reach::May;
    }
    if place.group != g {
        return Reach::Misses;
    }
    if place.leader {
        return Reach::Hits;
    }
    Reach::May
}

// What a command to an address is to node k, by its place, if that is known.
fn reach_by(to: Address, k: u8, known: bool, place: Place) -> Reach
    ensures { result ≡ reach_by to k known place }
{
    match to {
        Address::Individual(i) => { if i.0 == k { Reach::Hits } else { Reach::Misses } }
        Address::Group(g) => group_reach(g, known, place),
    }
}

// By its entry.
fn reach_of(to: Address, k: u8, e: Entry) -> Reach
    ensures { result ≡ reach_of to k e }
{
    reach_by(to, k, e.known.place, e.settings.place)
}

// The record after an exchange: a command to an address, and how it was answered.
pub fn settle(
    entries: [Entry; MOST_NODES],
    n: u8,
    to: Address,
    c: Command,
    answer: Answer,
) -> [Entry; MOST_NODES]
    ensures { result ≡ settle_of answer to c n entries }
{
    let mut all = entries;
    for i in 0..least(n) {
        let e = all[i];
        all[i] = e.note(answer, reach_of(to, i as u8 + 1, e), c);
    }
    all
}

// Everything in doubt, in all 31 entries: what a Hard Reset leaves.
#[tactic(auto, unfolding(crate::specs::Ledger::forget_of))]
pub fn forget(entries: [Entry; MOST_NODES]) -> [Entry; MOST_NODES]
    ensures { result ≡ forget_of entries }
{
    // By index, as `settle`: an array's `map` keeps both arrays, and more, in the frame of whoever sends.
    let mut all = entries;
    for i in 0..MOST_NODES {
        all[i] = all[i].doubt(Command::HardReset);
    }
    all
}

// Whether one of nodes 1 to n passes a test of its number and its entry.
fn has_any<F: Fn(u8, Entry) -> bool>(entries: &[Entry; MOST_NODES], n: u8, test: F) -> bool
    requires { F.IsAlwaysCallable test }
    ensures { (t : ℕ → Entry → Bool) → ((k : ℕ) (e : Entry) (r : Bool) → F.post test k e r → r ≡ t k e) → result ≡ any_from t 1 (ledger_least n) entries.now }
{
    for i in 0..least(n) {
        if test(i as u8 + 1, entries[i]) {
            return true;
        }
    }
    false
}

// Whether node j, another than k, leads group g or has its place in doubt.
fn is_rival(k: u8, g: Group, j: u8, e: Entry) -> bool
    ensures { result ≡ is_rival k g j e }
{
    let place = e.settings.place;
    j != k && (!e.known.place || place.leader && place.group == g)
}

// Whether one of nodes 1 to n, another than k, leads group g or has its place in doubt.
pub fn is_led(entries: [Entry; MOST_NODES], n: u8, k: u8, g: Group) -> bool
    ensures { result ≡ is_led k g n entries }
{
    has_any(&entries, n, |j, e| is_rival(k, g, j, e))
}

// Whether a command to an address may reach node k, whose kind lacks it: also one that writes nothing.
fn does_lack(to: Address, c: Command, k: u8, e: Entry) -> bool
    ensures { result ≡ does_lack to c k e }
{
    match reach_of(to, k, e) {
        Reach::Misses => false,
        Reach::Hits | Reach::May => !command::has(e.kind, c),
    }
}

// Whether a command to an address may reach one of nodes 1 to n whose kind lacks it.
pub fn is_lacked(entries: [Entry; MOST_NODES], n: u8, to: Address, c: Command) -> bool
    ensures { result ≡ is_lacked to c n entries }
{
    has_any(&entries, n, |k, e| does_lack(to, c, k, e))
}

// Whether the manual of a node's kind doesn't list a divisor.
fn lacks_divisor(divisor: u8, e: Entry) -> bool
    ensures { result ≡ lacks_divisor divisor e }
{
    !command::is_listed(e.kind, divisor)
}

// Whether that of one of nodes 1 to n doesn't.
fn is_unlisted(entries: [Entry; MOST_NODES], n: u8, divisor: u8) -> bool
    ensures { result ≡ is_unlisted divisor n entries }
{
    has_any(&entries, n, |_, e| lacks_divisor(divisor, e))
}

// Whether a divisor is none that the manual of every kind on the chain lists. What the LS-773's doesn't list no manual does: it is asked in any case, and alone where there are no nodes.
#[tactic(auto, unfolding(crate::specs::Ledger::is_off_list))]
pub fn is_off_list(entries: [Entry; MOST_NODES], n: u8, divisor: u8) -> bool
    ensures { result ≡ is_off_list divisor n entries }
{
    !command::is_listed(Kind::Gate, divisor) || is_unlisted(entries, n, divisor)
}
