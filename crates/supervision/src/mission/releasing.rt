ghost use Rattle.std.specs.Prelude.{◌≡◌, IfOk};
ghost use Rattle.calls.specs.declared.call.Call.TheVariants.{Release};
ghost use Rattle.history.specs.Step.{is_releasable};
ghost use Rattle.supervision.specs.Missions.{Law, Made, answer_of};

use crate::lists::Lists;
use crate::mission::Mission;
use braking::BrakingModel;
use calls::{Phase, Refusal};

impl<M: BrakingModel> Mission<M> {
    // Lets the emergency brake go, where the last accepted call was a sample in zone 0; refused elsewhere (12).
    // The lists are for its contract alone, which says of the whole state what a release makes of it.
    pub fn release(&mut self, lists: &Lists<'_>) -> Result<Phase, Refusal>
        ensures made { Made M.BrakingModel.meaning Release (answer_of result) self.old self.new lists.now lists.now }
        ensures phase { IfOk result (λ p. p ≡ self.new.phase) }
        ensures law { Law M.BrakingModel.meaning Release (answer_of result) self.old self.new lists.now lists.now }
    {
        if !self.is_releasable() {
            return Err(Refusal::NotReleasable);
        }
        self.phase = Phase::Free;
        Ok(self.accept())
    }

    // Whether the phase is emergency, and the last accepted call was a sample in zone 0.
    fn is_releasable(&self) -> bool
        ensures { result ≡ is_releasable self.now.phase self.now.clear }
    {
        self.phase == Phase::Emergency && self.clear
    }
}
