ghost use Rattle.std.specs.Prelude.{◌≡◌, ◌≤◌, ◌-◌, max};
ghost use Rattle.history.specs.History.{rear_of};
ghost use Rattle.history.specs.Zones.{zone_within};

use crate::stretch::Stretch;
use braking::Distances;
use calls::Zone;
use sheet::Values;
use units::Distance;

// A sheet has the length of its train in m; places are in mm.
const MILLIMETRES_PER_METRE: u64 = 1_000;

// Where a train stands: from its rear to its front, both places along the line in mm, the rear never ahead of the front.
#[derive(Clone, Copy, Debug, PartialEq, Eq)]
pub struct Position {
    pub rear: Distance,
    pub front: Distance,
    ghost behind: { rear.millimetres ≤ front.millimetres },
}

impl Position {
    // The position of the sheet's train by its front: the rear is the sheet's `length` behind it, and at place 0 where that would be below 0.
    // It is that length whatever `lfren` says, which is about the brake pipe alone. Any front and any length may be given.
    pub fn of_front(front: Distance, sheet: &Values) -> Position
        ensures front { result.front ≡ front }
        ensures rear { result.rear.millimetres ≡ rear_of sheet.now front.millimetres }
    {
        let length = MILLIMETRES_PER_METRE * u64::from(sheet.length);
        Position {
            rear: Distance {
                millimetres: front.millimetres.saturating_sub(length),
            },
            front,
        }
    }

    // The stretch whose grades count for a place: from the rear to the place, or to the front once the place is passed.
    pub fn stretch_to(self, place: Distance) -> Stretch
        ensures start { result.start ≡ self.rear }
        ensures end { result.end.millimetres ≡ max self.front.millimetres place.millimetres }
    {
        Stretch {
            start: self.rear,
            end: self.front.max(place),
        }
    }

    // The distance from the front to the place, 0 mm once the place is passed.
    pub fn distance_left(self, place: Distance) -> Distance
        ensures { result.millimetres ≡ place.millimetres - self.front.millimetres }
    {
        Distance {
            millimetres: place.millimetres.saturating_sub(self.front.millimetres),
        }
    }

    // The zone of a place by the distance left to it.
    pub(crate) fn zone_within(self, place: Distance, distances: Distances) -> Zone
        ensures { result ≡ zone_within distances.control.millimetres distances.warning.millimetres distances.nominal.millimetres self.front.millimetres place.millimetres }
    {
        let left = self.distance_left(place);
        if left <= distances.control {
            Zone::Control
        } else if left <= distances.warning {
            Zone::Warning
        } else if left <= distances.nominal {
            Zone::Nominal
        } else {
            Zone::Clear
        }
    }
}
