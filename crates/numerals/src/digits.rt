ghost use Rattle.std.specs.Prelude.{◌≡◌, ◌∷◌, [], ◌≢◌, true};
ghost use Rattle.numerals.specs.Numerals.{IsPlain};

// The written digits of a whole number: 1 to 10 of them, with a 0 in front only as 0 itself.
#[derive(Clone, Copy, Debug, PartialEq, Eq)]
pub struct Digits<'a> {
    pub(crate) bytes: &'a [u8],
    ghost plain: { IsPlain 10 bytes.now },
}

// The written digits of a whole number of either sign, with a minus in front of one below zero.
#[derive(Clone, Copy, Debug, PartialEq, Eq)]
pub struct SignedDigits<'a> {
    pub(crate) minus: bool,
    pub(crate) digits: Digits<'a>,
    // no minus stands in front of 0
    ghost never_minus_0: { minus ≡ true → digits.bytes.now ≢ 48 ∷ [] },
}
