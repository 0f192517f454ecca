ghost use Rattle.std.specs.Prelude.{◌≡◌, ◌≤◌};
ghost use Rattle.history.specs.Zones.{least_grade};
ghost use Rattle.supervision.specs.Items.{sections_in};

use crate::sections::Sections;
use units::{Distance, Grade, STEEPEST_FALL};

// The track from one place along the line to another, in mm, both of them counted; the end is never before the start.
#[derive(Clone, Copy, Debug, PartialEq, Eq)]
pub struct Stretch {
    pub start: Distance,
    pub end: Distance,
    ghost forward: { start.millimetres ≤ end.millimetres },
}

impl Stretch {
    // The least grade at any place of the stretch, both ends counted; before the first section it is the steepest fall.
    // A section up to the start takes the place of those before it; one further on can only lower the grade.
    pub fn least_grade(self, sections: Sections<'_>) -> Grade
        ensures { result.thousandths ≡ least_grade (sections_in sections.entry.items.now) self.start.millimetres self.end.millimetres }
    {
        sections
            .up_to(self.end)
            .iter()
            .fold(STEEPEST_FALL, |least, section| {
                if section.place <= self.start {
                    section.item
                } else {
                    least.min(section.item)
                }
            })
    }
}
