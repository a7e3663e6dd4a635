// Capital hexadecimal digits.
ghost use Rattle.std.specs.Prelude.{◌≡◌, ◌<◌};
ghost use Rattle.hexadecimal.specs.Digits.{digit_of, character_of};

// The value of a capital hexadecimal digit; 16 where b is none: `either_digit` of a sheet, which is told by the same definition, is a sum for speed (docs/PERFORMANCE.md).
#[tactic(auto, unfolding(crate::specs::Digits::digit_of))]
pub(crate) fn digit(b: u8) -> u8
    ensures { result ≡ digit_of b }
{
    match b {
        b'0'..=b'9' => b - b'0',
        b'A'..=b'F' => b - b'A' + 10,
        _ => 16,
    }
}

// The capital hexadecimal digit of a value below 16.
#[tactic(auto, unfolding(crate::specs::Digits::character_of))]
pub(crate) fn character(v: u8) -> u8
    requires { v < 16 }
    ensures { result ≡ character_of v }
{
    if v < 10 { b'0' + v } else { b'A' + (v - 10) }
}
