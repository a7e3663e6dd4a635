// A status mask: which items a status packet has under it, by the byte counts of Define Status at the kind of node that it is for.
// Promised: how many bytes the status packet has, and one whole status packet read under a mask.
// Left to others: the items' values (reply), and whether a reply is clear (status).
#![tactic(auto)]

ghost use Rattle.std.specs.Prelude.{◌≡◌};
ghost use Rattle.wire.specs.Numbers.{number_by};
ghost use Rattle.wire.specs.Promise.{Promise};
ghost use Rattle.mask.specs.Mask.{asked_count, size_of, mask_read};

use wire::{Kind, Refusal};

// The bytes of an item: none where it isn't asked for.
fn asked_count(wanted: bool, count: usize) -> usize
    ensures { result ≡ asked_count wanted count }
{
    if wanted { count } else { 0 }
}

// How many bytes the status packet of a node of that kind has under a mask: status byte, items, sum.
pub fn size(kind: Kind, mask: u8) -> usize
    ensures { result ≡ size_of kind mask }
{
    let counts = status::counts(kind);
    let mut bits = mask;
    let mut n = 2;
    for count in &counts {
        n += asked_count(bits % 2 == 1, *count as usize);
        bits /= 2;
    }
    n
}

// One whole status packet under a mask, from a node of that kind. Its items are `status::items_part`.
#[tactic(auto, unfolding(crate::specs::Mask::size_of, crate::specs::Mask::mask_read))]
pub fn read(kind: Kind, s: &[u8], mask: u8) -> Result<u8, Refusal>
    ensures { Promise number_by result (mask_read kind mask s.now) }
{
    status::read(s, size(kind, mask) - 2)
}
