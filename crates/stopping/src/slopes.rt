ghost use Rattle.std.specs.Prelude.{◌≡◌, pos, negsuc, ◌*ℤ◌, ◌≤ℤ◌};
ghost use Rattle.stopping.specs.Slopes.{share_of, slope_of};

use braking::Approach;
use units::{Deceleration, Grade};

// A share of a grade, in hundredths.
#[derive(Clone, Copy)]
struct GradeShare {
    hundredths: i64,
}

// The shares that are counted on: uphill, downhill as far as `GENTLE`, and on steeper falls.
const UPHILL: GradeShare = GradeShare { hundredths: 90 };

const DOWNHILL: GradeShare = GradeShare { hundredths: 100 };

const STEEP: GradeShare = GradeShare { hundredths: 110 };

const LEVEL: Grade = Grade { thousandths: 0 };

const GENTLE: Grade = Grade { thousandths: -20 };

// What gravity, 9.81 m/s², does along a hundredth of a thousandth of grade, in units of deceleration.
const UNITS_PER_HUNDREDTH: i64 = 981;

// A grade by the share of it that is counted on, in hundredths of a thousandth.
#[derive(Clone, Copy)]
struct CountedGrade {
    hundredths: i64,
    ghost not_below: { negsuc 3849 ≤ℤ hundredths },
    ghost not_above: { hundredths ≤ℤ pos 3150 },
}

// The share of a grade that is counted on.
fn share_of(grade: Grade) -> GradeShare
    ensures { result.hundredths ≡ pos (share_of grade.thousandths) }
{
    if grade > LEVEL {
        UPHILL
    } else if grade >= GENTLE {
        DOWNHILL
    } else {
        STEEP
    }
}

// What gravity does on a grade: below zero downhill.
fn by_gravity(counted: CountedGrade) -> Deceleration
    ensures { result.units ≡ counted.hundredths *ℤ pos 981 }
{
    Deceleration {
        units: counted.hundredths * UNITS_PER_HUNDREDTH,
    }
}

// What gravity adds to the deceleration, in units, below zero downhill: the grade times the share of it that is counted on, in hundredths, times 981.
pub fn slope(approach: Approach) -> Deceleration
    ensures value { result.units ≡ slope_of approach.grade }
    ensures not_below { negsuc 4199999 ≤ℤ result.units }
    ensures not_above { result.units ≤ℤ pos 4200000 }
{
    let grade = approach.grade();
    by_gravity(CountedGrade {
        hundredths: share_of(grade).hundredths * grade.thousandths,
    })
}
