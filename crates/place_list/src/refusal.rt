ghost use Rattle.std.specs.Prelude.{◌≡◌};
ghost use Rattle.place_list.specs.Refusals.{number};

// Why an insert is refused, with the number by which it is reported.
#[derive(Clone, Copy, Debug, PartialEq, Eq)]
pub enum Refusal {
    // No more items fit.
    Full = 11,
}

impl Refusal {
    // The number by which the refusal is reported.
    pub fn number(self) -> u8
        ensures { result ≡ number self }
    {
        self as u8
    }
}
