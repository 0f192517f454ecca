ghost use Rattle.std.specs.Prelude.{◌≡◌, IfOk};
ghost use Rattle.calls.specs.declared.call.Call.TheVariants.{Slope};
ghost use Rattle.supervision.specs.Missions.{Law, Made, answer_of};

use crate::limits::check_slope;
use crate::lists::Lists;
use crate::mission::Mission;
use braking::BrakingModel;
use calls::{Phase, Refusal};
use place_list::Placed;
use units::{Distance, Grade};

impl<M: BrakingModel> Mission<M> {
    // Adds a section of this grade, which reaches from its place up to, not at, the next one's.
    // Refused where the place is beyond the furthest (7), the grade out of limits (9), where a section begins at the place (10), or no more fit (11).
    pub fn slope(
        &mut self,
        lists: &mut Lists<'_>,
        place: Distance,
        grade: Grade,
    ) -> Result<Phase, Refusal>
        ensures made { Made M.BrakingModel.meaning (Slope place grade) (answer_of result) self.old self.new lists.old lists.new }
        ensures phase { IfOk result (λ p. p ≡ self.new.phase) }
        ensures targets { lists.new.targets ≡ lists.old.targets }
        ensures ceilings { lists.new.ceilings ≡ lists.old.ceilings }
        ensures law { Law M.BrakingModel.meaning (Slope place grade) (answer_of result) self.old self.new lists.old lists.new }
    {
        check_slope(place, grade)?;
        lists.add_section(Placed { place, item: grade })?;
        Ok(self.accept())
    }
}
