// KIND: 00 an LS-773, 01 an LS-173AP.
ghost use Rattle.std.specs.Prelude.{◌≡◌};
ghost use Rattle.fields.specs.Kind.{is_kind, read_kind, kind_byte, answer_put_kind, are_kinds, read_kinds};

use crate::answer::Answer;
use crate::read::byte;
use std::array;
use wire::Kind;

// A test and a reader of any byte, and no `TryFrom`: a line is tested whole and then read, and the impl had to stand beside the type, in wire, which knows no lines.
// Whether a byte is a KIND.
pub fn is_kind(b: u8) -> bool
    ensures { result ≡ is_kind b }
{
    b < 2
}

// The kind that it says; what is no KIND is taken for an LS-773.
pub fn read_kind(b: u8) -> Kind
    ensures { result ≡ read_kind b }
{
    if b == 1 { Kind::Drive } else { Kind::Gate }
}

// The KIND of a kind.
fn kind_byte(kind: Kind) -> u8
    ensures { result ≡ kind_byte kind }
{
    match kind {
        Kind::Gate => 0,
        Kind::Drive => 1,
    }
}

impl Answer {
    // With a KIND more.
    pub fn put_kind(self, kind: Kind) -> Answer
        ensures { result ≡ answer_put_kind self kind }
    {
        self.put(kind_byte(kind))
    }
}

// Whether each byte of s is a KIND.
pub fn are_kinds(s: &[u8]) -> bool
    ensures { result ≡ are_kinds s.now }
{
    s.iter().all(|b| is_kind(*b))
}

// The kinds that s says of a chain's nodes; past its end are LS-773s.
pub fn read_kinds(s: &[u8]) -> [Kind; wire::MOST_NODES]
    ensures { result ≡ read_kinds s.now }
{
    array::from_fn(|i| read_kind(byte(s, i)))
}
