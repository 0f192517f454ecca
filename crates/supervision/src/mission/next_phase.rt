ghost use Rattle.std.specs.Prelude.{◌≡◌, false};
ghost use Rattle.history.specs.Step.{next_phase};
ghost use Rattle.history.specs.Zones.{is_clear};
ghost use Rattle.supervision.specs.Missions.{SameTrain};

use crate::mission::Mission;
use braking::BrakingModel;
use calls::{Phase, Zone};

impl<M: BrakingModel> Mission<M> {
    // Takes in the zone of a sample: the phase by the table of docs/MISSION.md, in which only a release ends an emergency, and whether the zone is clear.
    pub(super) fn enter(&mut self, zone: Zone)
        ensures phase { self.new.phase ≡ next_phase self.old.phase zone }
        ensures clear { self.new.clear ≡ is_clear zone }
        ensures train { SameTrain self.old self.new }
    {
        self.phase = match (self.phase, zone) {
            (Phase::Free, Zone::Clear) => Phase::Free,
            (Phase::Free, Zone::Nominal) => Phase::Free,
            (Phase::Free, Zone::Warning) => Phase::Warning,
            (Phase::Free, Zone::Control) => Phase::Emergency,
            (Phase::Warning, Zone::Clear) => Phase::Free,
            (Phase::Warning, Zone::Nominal) => Phase::Warning,
            (Phase::Warning, Zone::Warning) => Phase::Warning,
            (Phase::Warning, Zone::Control) => Phase::Emergency,
            (Phase::Emergency, _) => Phase::Emergency,
        };
        self.clear = zone == Zone::Clear;
    }

    // Ends an accepted call that is no sample: the phase stays, and no release is due until a sample in zone 0.
    pub(super) fn accept(&mut self) -> Phase
        ensures value { result ≡ self.new.phase }
        ensures phase { self.new.phase ≡ self.old.phase }
        ensures clear { self.new.clear ≡ false }
        ensures train { SameTrain self.old self.new }
    {
        self.clear = false;
        self.phase
    }
}
