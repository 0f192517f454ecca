ghost use Rattle.std.specs.Prelude.{◌<◌};

// A whole number above 0, to divide by.
#[derive(Clone, Copy, Debug, PartialEq, Eq)]
pub struct Divisor {
    pub value: u64,
    ghost above: { 0 < value },
}
