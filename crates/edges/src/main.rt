// Edges: calls that no line of `trials` can make, since its forms have no such arguments.
// One line a call: what was tried and its two arguments; then the paper's number, how many bytes the answer speaks of, and the lent buffer, which held 55 before.
// It has 5 bytes: a Nop and a Set Baud Rate have room there, a Set Address has not, so that 6 is seen to come before 5.
#![tactic(auto)]

use command::{Command, Motion, Place, Stop};
use node::Node;
use session::Session;
use std::io;
use wire::{Address, Group, Individual, Refusal};

// What is tried, and its two arguments.
#[derive(Clone, Copy)]
struct Case<'a> {
    what: &'a str,
    a: u8,
    b: u8,
}

fn show(
    rt: &impl Print,
    case: Case<'_>,
    number: u8,
    length: usize,
    lent: &[u8; 5],
) -> io::Result<()> {
    let Case { what, a, b } = case;
    let [v, w, x, y, z] = lent;
    // One line, one write.
    println!(rt;
        "{what} {a:02X} {b:02X}:{number:02X} {length:02X} {v:02X} {w:02X} {x:02X} {y:02X} {z:02X}"
    )
}

// A session made by hand: it counts as closed if n is above 31 or the walk past n.
fn session(n: u8, walk: u8) -> Session {
    let mut s = start::fresh();
    s.started = true;
    s.n = n;
    s.walk = walk;
    s
}

// An address of kind 0, individual, or 1, group.
fn address(kind: u8, number: u8) -> Address {
    if kind < 1 {
        return Address::Individual(Individual(number));
    }
    Address::Group(Group(number))
}

fn set_address(number: u8, group: u8) -> Command {
    Command::SetAddress(Place {
        address: Individual(number),
        group: Group(group),
        leader: true,
    })
}

// A command of a session of two nodes, which no other call sends.
fn order(
    rt: &impl Print,
    case: Case<'_>,
    walk: u8,
    at: u8,
    to: Address,
    c: Command,
) -> io::Result<()> {
    let mut lent = [0x55; 5];
    let step = host::order(session(2, walk), at, to, c, &mut lent);
    let sent = match step.end {
        Ok(Some(n)) => n,
        _ => 0,
    };
    show(rt, case, wire::number(step.end), sent, &lent)
}

// A Set Address to a node.
fn order_place(rt: &impl Print, walk: u8, node: u8) -> io::Result<()> {
    order(
        rt,
        Case {
            what: "order Set Address, walk and node",
            a: walk,
            b: node,
        },
        walk,
        Node::DIVISOR,
        address(0, node),
        set_address(node, 0x81),
    )
}

// A Set Baud Rate to a node or a group.
fn order_baud_rate(rt: &impl Print, walk: u8, to: u8) -> io::Result<()> {
    order(
        rt,
        Case {
            what: "order Set Baud Rate, walk and address",
            a: walk,
            b: to,
        },
        walk,
        Node::DIVISOR,
        address(to / 0x80, to),
        Command::SetBaudRate(0x0A),
    )
}

// A Set Baud Rate to all nodes, at a divisor.
fn order_baud_rate_at(rt: &impl Print, at: u8, divisor: u8) -> io::Result<()> {
    order(
        rt,
        Case {
            what: "order Set Baud Rate, divisor and data",
            a: at,
            b: divisor,
        },
        2,
        at,
        address(1, 0xFF),
        Command::SetBaudRate(divisor),
    )
}

// A command's packet.
fn build(rt: &impl Print, case: Case<'_>, to: Address, c: Command) -> io::Result<()> {
    let mut lent = [0x55; 5];
    let answer = codec::build(to, c, &mut lent);
    show(rt, case, wire::number(answer), answer.unwrap_or(0), &lent)
}

// A Nop to an address of kind 0, individual, or 1, group.
fn build_nop(rt: &impl Print, kind: u8, number: u8) -> io::Result<()> {
    build(
        rt,
        Case {
            what: "build Nop, kind and address",
            a: kind,
            b: number,
        },
        address(kind, number),
        Command::Nop,
    )
}

// A Set Address to node 1, with this place.
fn build_place(rt: &impl Print, number: u8, group: u8) -> io::Result<()> {
    build(
        rt,
        Case {
            what: "build Set Address, address and group",
            a: number,
            b: group,
        },
        address(0, 1),
        set_address(number, group),
    )
}

// A Set Baud Rate to an address of either kind: that it goes to groups alone is the host's rule.
fn build_baud_rate(rt: &impl Print, kind: u8, number: u8) -> io::Result<()> {
    build(
        rt,
        Case {
            what: "build Set Baud Rate, kind and address",
            a: kind,
            b: number,
        },
        address(kind, number),
        Command::SetBaudRate(0x0A),
    )
}

// A load for node 1 with this control byte, all else but the velocity 0.
fn build_load(rt: &impl Print, control: u8, velocity: u8) -> io::Result<()> {
    let load = Command::LoadTrajectory(Motion {
        position: 0,
        velocity: velocity as u32,
        acceleration: 0,
        control,
        pwm: 0,
    });
    build(
        rt,
        Case {
            what: "build Load Trajectory, control byte and velocity",
            a: control,
            b: velocity,
        },
        address(0, 1),
        load,
    )
}

// A Stop Motor for node 1 with this stop byte and position.
fn build_stop(rt: &impl Print, stop: u8, position: u8) -> io::Result<()> {
    let stopped = Command::StopMotor(Stop {
        position: position as u32,
        byte: stop,
    });
    build(
        rt,
        Case {
            what: "build Stop Motor, stop byte and position",
            a: stop,
            b: position,
        },
        address(0, 1),
        stopped,
    )
}

// A part of a line whose last byte lacks a digit.
fn read(rt: &impl Print, from: u8, count: u8) -> io::Result<()> {
    let mut lent = [0x55; 5];
    let line = text::rest(b"01 02 03 04 05 06 07 0", from as usize);
    let found = hexadecimal::read_bytes(text::first(line, count as usize), &mut lent);
    let answer = found.ok_or(Refusal::Range);
    show(
        rt,
        Case {
            what: "read a line, from and characters",
            a: from,
            b: count,
        },
        wire::number(answer),
        answer.unwrap_or(0),
        &lent,
    )
}

// A look at a node, from a session of n nodes; it is lent nothing.
fn look(rt: &impl Print, n: u8, node: u8) -> io::Result<()> {
    let shown = session::look(session(n, 0), Individual(node));
    show(
        rt,
        Case {
            what: "look, n and node",
            a: n,
            b: node,
        },
        wire::number(shown),
        0,
        &[0x55; 5],
    )
}

fn main(rt: HostRuntime) -> io::Result<()> {
    order_place(&rt, 2, 1)?;
    order_place(&rt, 2, 3)?;
    order_place(&rt, 0, 1)?;
    order_place(&rt, 3, 1)?;
    order_baud_rate(&rt, 2, 1)?;
    order_baud_rate(&rt, 2, 3)?;
    order_baud_rate(&rt, 2, 0xFF)?;
    order_baud_rate(&rt, 0, 0xFF)?;
    order_baud_rate(&rt, 3, 0xFF)?;
    order_baud_rate_at(&rt, 0x00, 0x0A)?;
    order_baud_rate_at(&rt, 0x3F, 0x00)?;
    build_nop(&rt, 0, 0x7F)?;
    build_nop(&rt, 0, 0x80)?;
    build_nop(&rt, 0, 0xFF)?;
    build_nop(&rt, 1, 0x80)?;
    build_nop(&rt, 1, 0x7F)?;
    build_nop(&rt, 1, 0x00)?;
    build_place(&rt, 0x7F, 0x80)?;
    build_place(&rt, 0x80, 0x80)?;
    build_place(&rt, 0x7F, 0x7F)?;
    build_baud_rate(&rt, 0, 0x01)?;
    build_baud_rate(&rt, 1, 0xFF)?;
    build_baud_rate(&rt, 1, 0x7F)?;
    build_load(&rt, 0x00, 0)?;
    build_load(&rt, 0x00, 1)?;
    build_load(&rt, 0x0D, 1)?;
    build_load(&rt, 0x02, 1)?;
    build_stop(&rt, 0x01, 0)?;
    build_stop(&rt, 0x01, 1)?;
    build_stop(&rt, 0x11, 1)?;
    read(&rt, 0, 0)?;
    read(&rt, 0, 5)?;
    read(&rt, 0, 20)?;
    read(&rt, 0, 22)?;
    read(&rt, 1, 4)?;
    look(&rt, 31, 31)?;
    look(&rt, 32, 31)?;
    look(&rt, 32, 32)?;
    look(&rt, 255, 1)?;
    look(&rt, 255, 255)
}
