// Decimal numbers of one or two digits.
ghost use Rattle.std.specs.Prelude.{◌≡◌};
ghost use Rattle.wire.specs.Promise.{Promise};
ghost use Rattle.text.specs.Digits.{value_of, two_digits, read_decimal, decimal_number};

// The value of a decimal digit.
#[tactic(auto, unfolding(crate::specs::Digits::value_of))]
fn value(b: u8) -> Option<u8>
    ensures { result ≡ value_of b }
{
    if b.is_ascii_digit() {
        Some(b - b'0')
    } else {
        None
    }
}

// A number of two digits: the first isn't 0.
fn two_digits(a: u8, b: u8) -> Option<u8>
    ensures { result ≡ two_digits (value_of a) (value_of b) }
{
    let tens = value(a)?;
    let ones = value(b)?;
    if tens < 1 {
        return None;
    }
    Some(tens * 10 + ones)
}

// A decimal number of one or two digits, without a leading zero.
#[tactic(auto, using(crate::proofs::Numerals::decimal_one, crate::proofs::Numerals::decimal_two, crate::proofs::Numerals::decimal_not))]
pub fn read_decimal(s: &[u8]) -> Option<u8>
    ensures { Promise decimal_number result (read_decimal s.now) }
{
    if s.len() == 1 {
        return value(s[0]);
    }
    if s.len() == 2 {
        return two_digits(s[0], s[1]);
    }
    None
}
