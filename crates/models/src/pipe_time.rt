ghost use Rattle.std.specs.Prelude.{◌≡◌, ◌*◌, ◌≤◌};

use crate::share::Share;
use units::Time;

// A time of the brake pipe in millionths of a second, at most 18.5 s.
#[derive(Clone, Copy, Debug, PartialEq, Eq, PartialOrd, Ord)]
pub(crate) struct PipeTime {
    pub(crate) microseconds: u64,
    ghost bounded: { microseconds ≤ 18500000 },
}

impl PipeTime {
    // A share of the time, with nothing rounded: a hundredth of a millionth of a second is a tick.
    pub(crate) fn times(self, share: Share) -> Time
        ensures { result.ticks ≡ share.hundredths * self.microseconds }
    {
        Time {
            ticks: share.hundredths * self.microseconds,
        }
    }
}
