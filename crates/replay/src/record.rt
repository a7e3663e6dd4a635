// The host's record: which settings one shows otherwise than another, and its lines.
use crate::drive::DriveChosen;
use crate::gate::GateChosen;
use crate::setting::{put_doubt, put_name};
use crate::values::put_place;
use entry::Entry;
use session::Session;
use std::io;
use wire::{Individual, Kind};

// Some of a node's settings; those of the other kind are of no use.
#[derive(Clone, Copy)]
struct Chosen {
    place: bool,
    mask: bool,
    divisor: bool,
    gate: GateChosen,
    drive: DriveChosen,
}

// ---- what differs

impl Chosen {
    const ALL: Chosen = Chosen {
        place: true,
        mask: true,
        divisor: true,
        gate: GateChosen::ALL,
        drive: DriveChosen::ALL,
    };

    // Those whose value, or whether it is in doubt, differs between two entries.
    fn changed(old: Entry, new: Entry) -> Chosen {
        let s = old.settings;
        let t = new.settings;
        let k = old.known;
        let l = new.known;
        Chosen {
            place: (s.place != t.place) | (k.place != l.place),
            mask: (s.mask != t.mask) | (k.mask != l.mask),
            divisor: (s.divisor != t.divisor) | (k.divisor != l.divisor),
            gate: GateChosen::changed(s.gate, k.gate, t.gate, l.gate),
            drive: DriveChosen::changed(s.drive, k.drive, t.drive, l.drive),
        }
    }

    // Whether a node of this kind has one of them.
    fn has_any(self, kind: Kind) -> bool {
        let own = match kind {
            Kind::Gate => self.gate.has_any(),
            Kind::Drive => self.drive.has_any(),
        };
        self.place | self.mask | self.divisor | own
    }
}

// ---- one node

// The chosen settings of an entry, in the sequence of RECORDINGS' tables.
fn put_settings(rt: &impl Print, e: Entry, chosen: Chosen) -> io::Result<()> {
    let settings = e.settings;
    let known = e.known;
    let mut behind = false;
    if chosen.place {
        put_name(rt, &mut behind, "place ")?;
        put_place(rt, settings.place)?;
        put_doubt(rt, known.place)?;
    }
    if chosen.mask {
        put_name(rt, &mut behind, "mask ")?;
        print!(rt; "{:02X}", settings.mask)?;
        put_doubt(rt, known.mask)?;
    }
    if chosen.divisor {
        put_name(rt, &mut behind, "divisor ")?;
        print!(rt; "{:02X}", settings.divisor)?;
        put_doubt(rt, known.divisor)?;
    }
    match e.kind {
        Kind::Gate => chosen.gate.put(rt, settings.gate, known.gate, &mut behind),
        Kind::Drive => chosen
            .drive
            .put(rt, settings.drive, known.drive, &mut behind),
    }
}

// A node's entry.
fn entry_of(s: Session, node: u8) -> Entry {
    match session::look(s, Individual(node)) {
        Ok(e) => e,
        // It never comes to this: the nodes are counted to n.
        Err(_) => Entry::power_up(Kind::Gate),
    }
}

// ---- all nodes

// The changes at a node, if there are any, behind those of others. Whether there are some by now.
fn put_node_changes(
    rt: &impl Print,
    before: Session,
    after: Session,
    node: u8,
    some: bool,
) -> io::Result<bool> {
    let old = entry_of(before, node);
    let new = entry_of(after, node);
    let chosen = Chosen::changed(old, new);
    if chosen.has_any(new.kind) {
        if some {
            print!(rt; "; ")?;
        }
        print!(rt; "node {node}: ")?;
        put_settings(rt, new, chosen)?;
        return Ok(true);
    }
    Ok(some)
}

// The settings that the record shows otherwise than before, node by node.
pub(crate) fn put_changes(rt: &impl Print, before: Session, after: Session) -> io::Result<()> {
    let mut some = false;
    for node in 1..=after.n {
        some = put_node_changes(rt, before, after, node, some)?;
    }
    if !some {
        print!(rt; "no change")?;
    }
    Ok(())
}

// How many nodes there are, and how far their walk is.
fn put_walk(rt: &impl Print, s: Session) -> io::Result<()> {
    let plural = if s.n == 1 { "" } else { "s" };
    print!(rt; "{} node{plural}, ", s.n)?;
    if session::is_closed(s) {
        return println!(rt; "closed");
    }
    if s.walk < s.n {
        println!(rt; "walk at {}", s.walk)
    } else {
        println!(rt; "ready")
    }
}

// A node's line: its kind, if it is a drive, and all of its settings.
fn put_node(rt: &impl Print, s: Session, node: u8) -> io::Result<()> {
    let e = entry_of(s, node);
    match e.kind {
        Kind::Gate => print!(rt; "node {node}: "),
        Kind::Drive => print!(rt; "node {node}, drive: "),
    }?;
    put_settings(rt, e, Chosen::ALL)?;
    println!(rt; "")
}

// The record: a line for the session, and a line for each node.
pub(crate) fn put_record(rt: &impl Print, s: Session) -> io::Result<()> {
    put_walk(rt, s)?;
    for node in 1..=s.n {
        put_node(rt, s, node)?;
    }
    Ok(())
}
