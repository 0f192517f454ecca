// The quantities, one struct around a number each, so that none passes for another.
// Each holds any number of its width: whether it is within limits is asked by the function that takes it.

ghost use Rattle.std.specs.Prelude.{◌≡◌, ◌+◌, ◌-◌, ◌^◌, ◌<◌, ◌≤◌, pos, negsuc, ◌+ℤ◌, ◌≤ℤ◌};

use std::ops::{Add, Sub};

// A speed in tenths of km/h.
#[derive(Clone, Copy, Debug, Default, PartialEq, Eq, PartialOrd, Ord)]
pub struct Speed {
    pub tenths: u64,
}

impl Add for Speed {
    type Output = Speed;

    ghost can_add = { λ a b. a.tenths + b.tenths < 2 ^ 64 };

    ghost add_gives = { λ a b r. r.tenths ≡ a.tenths + b.tenths };

    fn add(self, more: Speed) -> Speed {
        Speed {
            tenths: self.tenths + more.tenths,
        }
    }
}

impl Sub for Speed {
    type Output = Speed;

    ghost can_sub = { λ a b. b.tenths ≤ a.tenths };

    ghost sub_gives = { λ a b r. r.tenths ≡ a.tenths - b.tenths };

    fn sub(self, less: Speed) -> Speed {
        Speed {
            tenths: self.tenths - less.tenths,
        }
    }
}

// A speed in fine steps, thousandths of a tenth of km/h.
#[derive(Clone, Copy, Debug, PartialEq, Eq, PartialOrd, Ord)]
pub struct FineSpeed {
    pub fine_steps: u64,
}

// A distance, or a place along the line, in mm.
#[derive(Clone, Copy, Debug, Default, PartialEq, Eq, PartialOrd, Ord)]
pub struct Distance {
    pub millimetres: u64,
}

impl Add for Distance {
    type Output = Distance;

    ghost can_add = { λ a b. a.millimetres + b.millimetres < 2 ^ 64 };

    ghost add_gives = { λ a b r. r.millimetres ≡ a.millimetres + b.millimetres };

    fn add(self, more: Distance) -> Distance {
        Distance {
            millimetres: self.millimetres + more.millimetres,
        }
    }
}

// A time in ticks, a hundred million to the second.
#[derive(Clone, Copy, Debug, PartialEq, Eq, PartialOrd, Ord)]
pub struct Time {
    pub ticks: u64,
}

impl Add for Time {
    type Output = Time;

    ghost can_add = { λ a b. a.ticks + b.ticks < 2 ^ 64 };

    ghost add_gives = { λ a b r. r.ticks ≡ a.ticks + b.ticks };

    fn add(self, more: Time) -> Time {
        Time {
            ticks: self.ticks + more.ticks,
        }
    }
}

// A deceleration in units, ten million to one m/s²; below zero where the train gains speed.
#[derive(Clone, Copy, Debug, PartialEq, Eq, PartialOrd, Ord)]
pub struct Deceleration {
    pub units: i64,
}

impl Add for Deceleration {
    type Output = Deceleration;

    ghost can_add = { λ a b. (negsuc (2 ^ 63 - 1) ≤ℤ (a.units +ℤ b.units)) × ((a.units +ℤ b.units) ≤ℤ pos (2 ^ 63 - 1)) };

    ghost add_gives = { λ a b r. r.units ≡ a.units +ℤ b.units };

    fn add(self, more: Deceleration) -> Deceleration {
        Deceleration {
            units: self.units + more.units,
        }
    }
}

// A grade in thousandths, uphill positive and downhill negative.
#[derive(Clone, Copy, Debug, Default, PartialEq, Eq, PartialOrd, Ord)]
pub struct Grade {
    pub thousandths: i64,
}
