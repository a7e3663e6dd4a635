// Whether two texts are one and the same.
ghost use Rattle.std.specs.Prelude.{◌≡◌};
ghost use Rattle.text.specs.Same.{is_same};

// Whether two runs of bytes are the same.
#[tactic(auto, using(crate::proofs::Sameness::pointwise_same))]
pub fn is_same(a: &[u8], b: &[u8]) -> bool
    ensures { result ≡ is_same a.now b.now }
{
    a == b
}
