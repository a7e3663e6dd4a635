// Bytes written into a lent buffer, each that has room.
ghost use Rattle.std.specs.Prelude.{◌+◌, ◌<◌, length};
ghost use Rattle.tryrecording.specs.Writing.{WroteEach};

use buffer::store;

// Some bytes, from `at` on; the position behind them.
pub(crate) fn put_bytes(out: &mut [u8], at: usize, bytes: &[u8]) -> usize
    requires { at + length bytes.now < 0x100000 }
    ensures { WroteEach bytes.now at out.old result out.new }
{
    for (i, b) in bytes.iter().enumerate() {
        store(out, at + i, *b);
    }
    at + bytes.len()
}
