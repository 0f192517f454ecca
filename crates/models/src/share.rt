ghost use Rattle.std.specs.Prelude.{◌≤◌};

// A share in hundredths, at most twice the whole.
#[derive(Clone, Copy, Debug, PartialEq, Eq)]
pub struct Share {
    pub(crate) hundredths: u64,
    ghost small: { hundredths ≤ 200 },
}
