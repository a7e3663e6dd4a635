// The line that is written for an answer of the chain.
// Each function writes from `at` on, if there is room, and answers the position behind what it wrote or would have written.
ghost use Rattle.std.specs.Prelude.{◌+◌, ◌≤◌, ◌<◌, length};
ghost use Rattle.status.specs.Status.{most_reply};
ghost use Rattle.hexadecimal.specs.Hex.{hex_line};
ghost use Rattle.script.specs.Answers.{number_end, refused_line, answer_line};
ghost use Rattle.buffer.specs.Wrote.{Wrote};
ghost use Rattle.script.specs.Line.{far, WroteLine};

use chain::Delivery;
use wire::Refusal;

fn append(out: &mut [u8], at: usize, part: &[u8]) -> usize
    requires { (at ≤ far + 64) × (length part.now ≤ 64) }
    ensures { Wrote part.now at out.old result out.new }
{
    buffer::put(out, at, part);
    at + part.len()
}

// A number below 100, and the newline.
fn put_number_end(out: &mut [u8], at: usize, n: u8) -> usize
    requires { (at ≤ far + 64) × (n < 100) }
    ensures { Wrote (number_end n) at out.old result out.new }
{
    if n < 10 {
        let one = [48 + n, text::NEWLINE];
        return append(out, at, &one);
    }
    let two = [48 + n / 10, 48 + n % 10, text::NEWLINE];
    append(out, at, &two)
}

pub(crate) fn put_refused_line(out: &mut [u8], at: usize, why: Refusal) -> usize
    requires { at ≤ far }
    ensures { WroteLine (refused_line why) at out.old result out.new }
{
    let p = append(out, at, b"refused ");
    put_number_end(out, p, why.number())
}

// The longest reply has 19 bytes, so that its line has room in 64.
fn put_hex_line(out: &mut [u8], at: usize, reply: &[u8]) -> usize
    requires { (at ≤ far) × (length reply.now ≤ most_reply) }
    ensures { WroteLine (hex_line reply.now) at out.old result out.new }
{
    let mut line = [0; 64];
    match hexadecimal::write_line(reply, &mut line) {
        Ok(n) => append(out, at, text::first(&line, n)),
        // It never comes to this.
        Err(_) => at,
    }
}

// The line for an answer, whose reply stands at the start of `reply`.
pub(crate) fn put_answer_line(
    out: &mut [u8],
    at: usize,
    answer: Result<Delivery, Refusal>,
    reply: &[u8],
) -> usize
    requires { (at ≤ far) × (length reply.now ≤ most_reply) }
    ensures { WroteLine (answer_line answer reply.now) at out.old result out.new }
{
    match answer {
        Ok(Delivery::Silent) => append(out, at, b"-\n"),
        Ok(Delivery::Replied(n)) => put_hex_line(out, at, text::first(reply, n)),
        Ok(Delivery::Collision) => append(out, at, b"collision\n"),
        Err(why) => put_refused_line(out, at, why),
    }
}
