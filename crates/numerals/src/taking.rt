ghost use Rattle.std.specs.Prelude.{◌≡◌, ℕ, ◌<◌, ◌^◌, ◌↔◌, IsTrue, decimal};
ghost use Rattle.std.specs.Str.Parse.{digits_value};
ghost use Rattle.numerals.specs.Digits.{AllDigits};
ghost use Rattle.numerals.specs.Numerals.{IsDigitCount, HasLeadingZero};
ghost use Rattle.numerals.specs.Taking.{DigitsTaken, PlainTaken};
ghost use Rattle.numerals.specs.Laws.{TakesOwnDigits};

use crate::digits::Digits;

// No number of more digits is taken, whatever the caller allows.
pub const MAX_DIGITS: usize = 10;

impl<'a> Digits<'a> {
    // The bytes as digits: 1 to `max_digits` and never more than 10, with a 0 in front only as 0 itself. All else is `None`.
    #[tactic(auto, using(crate::proofs::RoundTrip::own_digits, crate::proofs::Plainness::decimal_plain))]
    pub fn take(bytes: &'a [u8], max_digits: usize) -> Option<Digits<'a>>
        ensures taken { DigitsTaken max_digits bytes.now result }
        ensures plain { PlainTaken max_digits bytes.now result }
        ensures own_digits { TakesOwnDigits }
    {
        if is_digit_count(bytes.len(), max_digits)
            && !has_leading_zero(bytes)
            && are_digits(bytes)
        {
            Some(Digits { bytes })
        } else {
            None
        }
    }

    // The number that the digits write.
    #[tactic(auto, using(crate::proofs::Values::values))]
    pub fn value(self) -> u64
        ensures written { self.entry.bytes.now ≡ decimal result }
        ensures digits { result ≡ digits_value 10 self.entry.bytes.now }
        // the digits write no other number
        ensures only { (n : ℕ) → n < 10 ^ 10 → self.entry.bytes.now ≡ decimal n → n ≡ result }
        ensures small { result < 10 ^ 10 }
    {
        let mut number = 0;
        for byte in self.bytes {
            number = number * 10 + u64::from(*byte - b'0');
        }
        number
    }
}

// Whether a number of so many digits is taken.
fn is_digit_count(count: usize, max_digits: usize) -> bool
    ensures { IsTrue result ↔ IsDigitCount max_digits count }
{
    (1..=max_digits.min(MAX_DIGITS)).contains(&count)
}

// Whether a 0 stands in front of further bytes.
fn has_leading_zero(bytes: &[u8]) -> bool
    ensures { IsTrue result ↔ HasLeadingZero bytes.now }
{
    matches!(bytes, [b'0', _, ..])
}

// Whether every byte is a digit.
fn are_digits(bytes: &[u8]) -> bool
    ensures { IsTrue result ↔ AllDigits bytes.now }
{
    bytes.iter().all(|byte| byte.is_ascii_digit())
}
