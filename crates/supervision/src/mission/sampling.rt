ghost use Rattle.std.specs.Prelude.{◌≡◌, IfOk};
ghost use Rattle.calls.specs.declared.call.Call.TheVariants.{Sample};
ghost use Rattle.supervision.specs.Missions.{Law, Made, sample_answer_of};

use crate::limits::check_sample;
use crate::lists::Lists;
use crate::mission::Mission;
use crate::sampled::Sampled;
use crate::zones::sample_zone;
use braking::BrakingModel;
use calls::Refusal;
use units::{Distance, Speed};

impl<M: BrakingModel> Mission<M> {
    // The train's front is at the place, its rear the sheet's `length` behind that, or at place 0 where that would be below it, and it runs this fast: works out the zone and the phase.
    // Refused where the place is beyond the furthest (7), or the speed above 4,000 tenths of km/h (8). A speed above the model's top speed is accepted, in zone 3.
    pub fn sample(
        &mut self,
        lists: &Lists<'_>,
        place: Distance,
        speed: Speed,
    ) -> Result<Sampled, Refusal>
        ensures made { Made M.BrakingModel.meaning (Sample place speed) (sample_answer_of result) self.old self.new lists.now lists.now }
        ensures phase { IfOk result (λ s. s.phase ≡ self.new.phase) }
        ensures law { Law M.BrakingModel.meaning (Sample place speed) (sample_answer_of result) self.old self.new lists.now lists.now }
    {
        check_sample(place, speed)?;
        let zone = sample_zone(&self.model, &self.sheet.values(), lists, place, speed);
        self.enter(zone);
        Ok(Sampled {
            phase: self.phase,
            zone,
        })
    }
}
