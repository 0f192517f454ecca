ghost use Rattle.std.specs.Prelude.{◌≡◌, IfOk};
ghost use Rattle.calls.specs.declared.call.Call.TheVariants.{Announce, Withdraw};
ghost use Rattle.supervision.specs.Limits.{AnnouncedPlace};
ghost use Rattle.supervision.specs.Missions.{Law, Made, answer_of, sheet_of};

use crate::announced::target_place;
use crate::limits::check_speed;
use crate::lists::Lists;
use crate::mission::Mission;
use crate::target::Target;
use braking::BrakingModel;
use calls::{Phase, Refusal};
use place_list::Placed;
use units::{Distance, Speed};

impl<M: BrakingModel> Mission<M> {
    // Adds a target by its number. It stands beyond the point by the distance, less the sheet's eps percent of it (`target_place`).
    // Refused where the point, the distance or their sum is beyond the furthest place (7), the speed above the model's top speed (8), the number taken (10), or no more fit (11).
    pub fn announce(
        &mut self,
        lists: &mut Lists<'_>,
        number: u16,
        point: Distance,
        distance: Distance,
        speed: Speed,
    ) -> Result<Phase, Refusal>
        ensures made { Made M.BrakingModel.meaning (Announce number point distance speed) (answer_of result) self.old self.new lists.old lists.new }
        ensures phase { IfOk result (λ p. p ≡ self.new.phase) }
        ensures sections { lists.new.sections ≡ lists.old.sections }
        ensures ceilings { lists.new.ceilings ≡ lists.old.ceilings }
        ensures law { Law M.BrakingModel.meaning (Announce number point distance speed) (answer_of result) self.old self.new lists.old lists.new }
    {
        let place = self.announced_place(point, distance, speed)?;
        let item = Target { number, speed };
        lists.add_target(Placed { place, item })?;
        Ok(self.accept())
    }

    // Takes the target with the number out. Refused where none has it (10).
    pub fn withdraw(&mut self, lists: &mut Lists<'_>, number: u16) -> Result<Phase, Refusal>
        ensures made { Made M.BrakingModel.meaning (Withdraw number) (answer_of result) self.old self.new lists.old lists.new }
        ensures phase { IfOk result (λ p. p ≡ self.new.phase) }
        ensures sections { lists.new.sections ≡ lists.old.sections }
        ensures ceilings { lists.new.ceilings ≡ lists.old.ceilings }
        ensures law { Law M.BrakingModel.meaning (Withdraw number) (answer_of result) self.old self.new lists.old lists.new }
    {
        lists.take_target(number)?;
        Ok(self.accept())
    }

    // Where an announced target stands, if it is within limits: places are asked before the speed.
    fn announced_place(
        &self,
        point: Distance,
        distance: Distance,
        speed: Speed,
    ) -> Result<Distance, Refusal>
        ensures { AnnouncedPlace (sheet_of self.now) (M.BrakingModel.meaning self.now.model) point.millimetres distance.millimetres speed.tenths result }
    {
        let place = target_place(point, distance, &self.sheet.values()).ok_or(
            Refusal::PlaceOutOfLimits,
        )?;
        check_speed(speed, self.model.top_speed().speed)?;
        Ok(place)
    }
}
