// The values that commands bring and settings have, in words.
use command::{Gains, Held, Place, Pwm};
use std::io;

// The greatest position. Those above it are negative: 32 bits, two's complement.
const MOST_POSITION: u32 = 0x7FFFFFFF;

// An address, a group, and whether the node leads it.
pub(crate) fn put_place(rt: &impl Print, p: Place) -> io::Result<()> {
    print!(rt; "{:02X} group {:02X}", p.address.0, p.group.0)?;
    if p.leader {
        print!(rt; " leader")?;
    }
    Ok(())
}

// Both PWM values.
pub(crate) fn put_pwm(rt: &impl Print, p: Pwm) -> io::Result<()> {
    print!(rt; "{:02X} {:02X}", p.first, p.second)
}

// Outputs and both PWM values.
pub(crate) fn put_held(rt: &impl Print, h: Held) -> io::Result<()> {
    print!(rt; "{:04X} ", h.outputs)?;
    put_pwm(rt, h.pwm)
}

// Gains by the manual's names, in the sequence in which they are sent.
pub(crate) fn put_gains(rt: &impl Print, g: Gains) -> io::Result<()> {
    print!(rt;
        "KP {:04X} KD {:04X} KI {:04X} IL {:04X} ",
        g.kp, g.kd, g.ki, g.il
    )?;
    print!(rt;
        "OL {:02X} EL {:04X} SR {:02X} DB {:02X}",
        g.ol, g.el, g.sr, g.db
    )
}

// A position: its size, with `-` in front if it is negative.
pub(crate) fn put_position(rt: &impl Print, position: u32) -> io::Result<()> {
    if MOST_POSITION < position {
        return print!(rt; "-{:08X}", u32::MAX - position + 1);
    }
    print!(rt; "{position:08X}")
}
