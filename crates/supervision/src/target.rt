ghost use Rattle.std.specs.Prelude.{◌≡◌};

use place_list::Keyed;
use units::Speed;

// From the place where it stands on, a train may run at `speed` at most. No other target of its mission has its number.
#[derive(Clone, Copy, Debug, Default, PartialEq, Eq)]
pub struct Target {
    pub number: u16,
    pub speed: Speed,
}

impl Keyed for Target {
    ghost key_number = { λ t. t.number };

    fn key(&self) -> u64 {
        u64::from(self.number)
    }
}
