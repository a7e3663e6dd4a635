// What stands for a lent buffer that is too long to be shown.
ghost use Rattle.std.specs.Prelude.{◌≡◌};
ghost use Rattle.trysheet.specs.Sums.{sums_with, sums_of};

// The sum of the bytes, and the sum of the sums so far.
#[derive(Clone, Copy)]
pub(crate) struct Sums {
    pub a: u16,
    pub b: u16,
}

impl Sums {
    // With one byte more.
    fn with(self, byte: u8) -> Sums
        ensures { result ≡ sums_with self byte }
    {
        let a = self.a.wrapping_add(u16::from(byte));
        Sums {
            a,
            b: self.b.wrapping_add(a),
        }
    }
}

// The sums of some bytes.
pub(crate) fn sums_of(bytes: &[u8]) -> Sums
    ensures { result ≡ sums_of bytes.now }
{
    bytes
        .iter()
        .fold(Sums { a: 0, b: 0 }, |sums, byte| sums.with(*byte))
}
