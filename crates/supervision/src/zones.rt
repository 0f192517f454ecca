ghost use Rattle.std.specs.Prelude.{◌≡◌, ◌≤◌};
ghost use Rattle.history.specs.Zones.{largest_zone, target_zone, zone as zone_of_sample};
ghost use Rattle.supervision.specs.Items.{sections_in, target_of, targets_in};
ghost use Rattle.supervision.specs.Judging.{judged_zone};
ghost use Rattle.supervision.specs.Lists.{track_of};

use crate::ceilings::ceiling_zone;
use crate::lists::Lists;
use crate::position::Position;
use crate::sections::Sections;
use crate::target::Target;
use braking::{BrakingModel, Distances, Question, Refusal};
use calls::Zone;
use place_list::Placed;
use sheet::Values;
use units::{Distance, Speed};

// The zone of a sample: the larger of its targets' and the ceiling's at its front, and control above the model's top speed.
pub(crate) fn sample_zone<M: BrakingModel>(
    model: &M,
    sheet: &Values,
    lists: &Lists<'_>,
    front: Distance,
    speed: Speed,
) -> Zone
    ensures { result ≡ zone_of_sample sheet.now (M.BrakingModel.meaning model.now) (track_of lists.now) front.millimetres speed.tenths }
{
    if speed > model.top_speed().speed {
        return Zone::Control;
    }
    let train = Train {
        model,
        sections: Sections {
            items: lists.sections(),
        },
        position: Position::of_front(front, sheet),
        speed,
    };
    let of_targets = train.largest_zone(lists.targets());
    let of_ceiling = ceiling_zone(lists.ceilings(), front, speed);
    of_targets.max(of_ceiling)
}

// A train at its position, no faster than its model's top speed, with the sections of its track.
#[derive(Drop)]
struct Train<'m, 's, M: BrakingModel> {
    model: &'m M,
    sections: Sections<'s>,
    position: Position,
    speed: Speed,
    ghost slow: { speed.tenths ≤ (M.BrakingModel.meaning model.now).top },
}

impl<'m, 's, M: BrakingModel> Train<'m, 's, M> {
    // The largest zone of the targets.
    fn largest_zone(&self, targets: &[Placed<Target>]) -> Zone
        ensures { result ≡ largest_zone (M.BrakingModel.meaning self.now.model.now) (sections_in self.now.sections.items.now) self.now.position.rear.millimetres self.now.position.front.millimetres self.now.speed.tenths (targets_in targets.now) }
    {
        let mut largest = Zone::Clear;
        for target in targets {
            largest = largest.max(self.target_zone(target));
        }
        largest
    }

    // The zone of a target. The model is asked about every target, and says itself which do not bind.
    fn target_zone(&self, target: &Placed<Target>) -> Zone
        ensures { result ≡ target_zone (M.BrakingModel.meaning self.now.model.now) (sections_in self.now.sections.items.now) self.now.position.rear.millimetres self.now.position.front.millimetres self.now.speed.tenths (target_of target.now) }
    {
        let stretch = self.position.stretch_to(target.place);
        let question = Question {
            speed: self.speed,
            target_speed: target.item.speed,
            grade: stretch.least_grade(self.sections),
        };
        judged_zone(self.model.answer(question), self.position, target.place)
    }
}

// The zone by what the model makes of the question for a place: control where the brake is too weak, clear where the target does not bind.
// The train is up to the top speed, so a speed above the top is the target's, which then does not bind; and no section has a grade that a model does not judge.
fn judged_zone(
    judged: Result<Option<Distances>, Refusal>,
    position: Position,
    place: Distance,
) -> Zone
    ensures { result ≡ judged_zone judged position.front.millimetres place.millimetres }
{
    match judged {
        Ok(Some(distances)) => position.zone_within(place, distances),
        Ok(None) | Err(Refusal::GradeOutOfLimits) => Zone::Control,
        Err(Refusal::TooFast | Refusal::NotBinding) => Zone::Clear,
    }
}
