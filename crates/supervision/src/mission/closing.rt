ghost use Rattle.std.specs.Prelude.{◌≡◌};

use crate::mission::Mission;
use braking::BrakingModel;
use calls::Phase;
use sheet::Draft;

impl<M: BrakingModel> Mission<M> {
    // The phase that the mission is in.
    pub fn phase(&self) -> Phase
        ensures { result ≡ self.now.phase }
    {
        self.phase
    }
}

impl<M: BrakingModel + Drop> Mission<M> {
    // The mission's draft back.
    pub fn close(self) -> Draft
        ensures { result.values ≡ self.sheet.values }
    {
        let Mission {
            model: _,
            sheet,
            phase: _,
            clear: _,
        } = self;
        sheet.into_draft()
    }
}
