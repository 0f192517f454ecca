ghost use Rattle.std.specs.Prelude.{◌≡◌, ℤ, ◌<◌, ◌^◌, unsigned_abs};
ghost use Rattle.std.specs.Fmt.{signed_decimal};
ghost use Rattle.numerals.specs.Taking.{SignedTaken, signed_bytes};

use crate::digits::{Digits, SignedDigits};

impl<'a> SignedDigits<'a> {
    // The bytes as digits, 1 to `max_digits` and never more than 10, with a minus in front of them or not, and none in front of 0. All else is `None`.
    #[tactic(auto, using(crate::proofs::Signs::signs))]
    pub fn take(bytes: &'a [u8], max_digits: usize) -> Option<SignedDigits<'a>>
        ensures { SignedTaken max_digits bytes.now result }
    {
        match bytes.strip_prefix(b"-") {
            Some(b"0") => None,
            Some(bytes) => Some(SignedDigits {
                minus: true,
                digits: Digits::take(bytes, max_digits)?,
            }),
            None => Some(SignedDigits {
                minus: false,
                digits: Digits::take(bytes, max_digits)?,
            }),
        }
    }

    // The number that the digits write, with their sign. A number of at most ten digits loses nothing by the cast.
    #[tactic(auto, using(crate::proofs::Signs::signs))]
    pub fn value(self) -> i64
        ensures written { signed_bytes self.entry ≡ signed_decimal result }
        // the digits with their sign write no other number
        ensures only { (z : ℤ) → unsigned_abs z < 10 ^ 10 → signed_bytes self.entry ≡ signed_decimal z → z ≡ result }
        ensures small { unsigned_abs result < 10 ^ 10 }
    {
        let number = self.digits.value() as i64;
        if self.minus { -number } else { number }
    }
}
