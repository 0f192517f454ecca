ghost use Rattle.std.specs.Prelude.{◌≡◌, ◌*◌, ◌≤◌};
ghost use Rattle.units.specs.Rounding.{ceiling};
ghost use Rattle.history.specs.Step.{max_place};
ghost use Rattle.supervision.specs.Placing.{Placing};

use sheet::Values;
use units::{Distance, Divisor, MAX_PLACE, quotient_up};

// Where a target stands that is announced at a distance from a point: the sheet's eps percent of the distance nearer, a share that is rounded up to a mm.
// None where the point, the distance or their sum is beyond the furthest place.
pub fn target_place(point: Distance, distance: Distance, sheet: &Values) -> Option<Distance>
    ensures { Placing sheet.now point.millimetres distance.millimetres result }
{
    let end = point
        .millimetres
        .checked_add(distance.millimetres)
        .filter(|end| *end <= MAX_PLACE.millimetres)?;
    Some(Distance {
        millimetres: end.saturating_sub(eps_share(distance, sheet).millimetres),
    })
}

// The sheet's eps percent of the distance, rounded up.
fn eps_share(distance: Distance, sheet: &Values) -> Distance
    requires { distance.millimetres ≤ max_place }
    ensures { result.millimetres ≡ ceiling (distance.millimetres * sheet.now.eps) 100 }
{
    Distance {
        millimetres: quotient_up(
            distance.millimetres * u64::from(sheet.eps),
            Divisor { value: 100 },
        ),
    }
}
