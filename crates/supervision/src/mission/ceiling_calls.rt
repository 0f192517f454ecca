ghost use Rattle.std.specs.Prelude.{◌≡◌, IfOk};
ghost use Rattle.calls.specs.declared.call.Call.TheVariants.{Ceiling, Lift};
ghost use Rattle.supervision.specs.Missions.{Law, Made, answer_of};

use crate::limits::{check_ceiling, check_place};
use crate::lists::Lists;
use crate::mission::Mission;
use braking::BrakingModel;
use calls::{Phase, Refusal};
use place_list::Placed;
use units::{Distance, Speed};

impl<M: BrakingModel> Mission<M> {
    // Adds a ceiling: no more than this speed from the place up to, not at, the next one's.
    // Refused where the place is beyond the furthest (7), the speed above the model's top speed (8), where a ceiling begins at the place (10), or no more fit (11).
    pub fn ceiling(
        &mut self,
        lists: &mut Lists<'_>,
        place: Distance,
        speed: Speed,
    ) -> Result<Phase, Refusal>
        ensures made { Made M.BrakingModel.meaning (Ceiling place speed) (answer_of result) self.old self.new lists.old lists.new }
        ensures phase { IfOk result (λ p. p ≡ self.new.phase) }
        ensures sections { lists.new.sections ≡ lists.old.sections }
        ensures targets { lists.new.targets ≡ lists.old.targets }
        ensures law { Law M.BrakingModel.meaning (Ceiling place speed) (answer_of result) self.old self.new lists.old lists.new }
    {
        check_ceiling(place, speed, self.model.top_speed())?;
        lists.add_ceiling(Placed { place, item: speed })?;
        Ok(self.accept())
    }

    // Takes the ceiling at the place out, so that the one before it holds on up to the next.
    // Refused where the place is beyond the furthest (7), or no ceiling begins at it (10).
    pub fn lift(&mut self, lists: &mut Lists<'_>, place: Distance) -> Result<Phase, Refusal>
        ensures made { Made M.BrakingModel.meaning (Lift place) (answer_of result) self.old self.new lists.old lists.new }
        ensures phase { IfOk result (λ p. p ≡ self.new.phase) }
        ensures sections { lists.new.sections ≡ lists.old.sections }
        ensures targets { lists.new.targets ≡ lists.old.targets }
        ensures law { Law M.BrakingModel.meaning (Lift place) (answer_of result) self.old self.new lists.old lists.new }
    {
        check_place(place)?;
        lists.take_ceiling(place)?;
        Ok(self.accept())
    }
}
