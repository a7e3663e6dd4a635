// Standard input, and any other reader, read into a lent buffer.
// Promised: what was read fits the buffer, and is what the reader had; where the buffer has room left, the reader is at its end.
// Left to others: what is read (the programs). Of standard input no contract can say what it has.
#![tactic(auto)]

ghost use Rattle.std.specs.Prelude.{◌≡◌, ◌<◌, IfOk, length, take};
ghost use Rattle.std.specs.Io.{ReadsAtMost};
ghost use Rattle.std.specs.Io.KnownBytes.{Consumes, IsAtEnd};
ghost use Rattle.reading.specs.Room.{reading_room};

use std::io;
use std::io::Read;

// Room for so many bytes. A long array is made here alone: written out in a larger function it is more than a check can follow.
#[tactic(auto, unfolding(crate::specs::Room::reading_room))]
pub fn room<const N: usize>() -> [u8; N]
    ensures value { result ≡ reading_room N }
    ensures size { N ≡ length result }
{
    [0; N]
}

// Reads until the buffer is full or the input ends. How many bytes it put at the start of the buffer.
// After an error some bytes are lost; so the programs end with it.
pub fn read_full<R: Read>(reader: &mut R, buf: &mut [u8]) -> io::Result<usize>
    ensures within { ReadsAtMost result buf.new }
    ensures bytes { IfOk result (λ n.
        Consumes (R.remaining reader.old) (R.remaining reader.new) (take n buf.new)) }
    ensures end { IfOk result (λ n. n < length buf.old → IsAtEnd (R.remaining reader.new)) }
{
    let mut done = 0;
    while done < buf.len() {
        let n = reader.read(&mut buf[done..])?;
        if n == 0 {
            break;
        }
        done += n;
    }
    Ok(done)
}

#[cfg(test)]
mod tests {
    use super::*;
    use std::io::{Error, ErrorKind};

    // A reader that gives a byte at each read, as long as it has some, and then fails.
    #[derive(Drop)]
    struct Broken {
        left: usize,
    }

    impl Read for Broken {
        fn read(&mut self, buf: &mut [u8]) -> io::Result<usize> {
            if self.left == 0 {
                return Err(Error::from(ErrorKind::BrokenPipe));
            }
            if buf.is_empty() {
                return Ok(0);
            }
            self.left -= 1;
            buf[0] = b'x';
            Ok(1)
        }
    }

    // The parts of an input come by a read each; a longer input than the buffer stays where it is.
    #[test]
    fn reads_part_after_part(rt: HostRuntime) {
        let mut longer = [b'.'; 6];
        let read = read_full(&mut (&b"ab"[..]).chain(&b"cd"[..]), &mut longer);
        assert!(rt; matches!(read, Ok(4)));
        assert!(rt; longer == *b"abcd..");
        let mut shorter = [b'.'; 3];
        let mut input = &b"abcd"[..];
        let read = read_full(&mut input, &mut shorter);
        assert!(rt; matches!(read, Ok(3)));
        assert!(rt; shorter == *b"abc");
        assert!(rt; input == b"d".as_slice());
    }

    // No answer stands in place of the error; where the buffer is full before, there is none.
    #[test]
    fn gives_a_later_read_s_error(rt: HostRuntime) {
        let mut buf = [b'.'; 3];
        let read = read_full(&mut Broken { left: 2 }, &mut buf);
        assert!(rt; matches!(read, Err(e) if e.kind() == ErrorKind::BrokenPipe));
        let read = read_full(&mut Broken { left: 3 }, &mut buf);
        assert!(rt; matches!(read, Ok(3)));
    }
}
