ghost use Rattle.std.specs.Prelude.{◌≡◌, ◌-◌};
ghost use Rattle.std.specs.Option.{option_map};
ghost use Rattle.history.specs.Zones.{ceiling_speed_at as speed_by_ceiling, ceiling_zone as zone_by_ceiling, excess_zone as zone_by_excess};
ghost use Rattle.supervision.specs.Items.{ceilings_in};

use calls::Zone;
use place_list::Placed;
use units::{Distance, Speed};

// By how much a train may be above a ceiling before it is warned.
const WARNING_EXCESS: Speed = Speed { tenths: 50 };

// And before the emergency brake goes on.
const CONTROL_EXCESS: Speed = Speed { tenths: 100 };

// The zone of a train by the ceiling at its front: clear where there is none.
pub(crate) fn ceiling_zone(ceilings: &[Placed<Speed>], front: Distance, speed: Speed) -> Zone
    ensures { result ≡ zone_by_ceiling (ceilings_in ceilings.now) front.millimetres speed.tenths }
{
    match ceiling_speed_at(ceilings, front) {
        Some(ceiling) => excess_zone(speed, ceiling),
        None => Zone::Clear,
    }
}

// The speed of the ceiling at a place: of the last one that begins up to it. The ceilings stand in the order of their places.
fn ceiling_speed_at(ceilings: &[Placed<Speed>], place: Distance) -> Option<Speed>
    ensures { option_map (λ v. v.tenths) result ≡ speed_by_ceiling (ceilings_in ceilings.now) place.millimetres }
{
    ceilings
        .iter()
        .take_while(|ceiling| ceiling.place <= place)
        .last()
        .map(|ceiling| ceiling.item)
}

// The zone by how far the speed is above that of the ceiling.
fn excess_zone(speed: Speed, ceiling: Speed) -> Zone
    ensures { result ≡ zone_by_excess (speed.tenths - ceiling.tenths) }
{
    let excess = Speed {
        tenths: speed.tenths.saturating_sub(ceiling.tenths),
    };
    if excess > CONTROL_EXCESS {
        Zone::Control
    } else if excess > WARNING_EXCESS {
        Zone::Warning
    } else if speed > ceiling {
        Zone::Nominal
    } else {
        Zone::Clear
    }
}
