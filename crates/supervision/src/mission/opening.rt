ghost use Rattle.std.specs.Prelude.{◌≡◌, false, []};
ghost use Rattle.calls.specs.declared.phase.Phase.TheVariants.{Free};
ghost use Rattle.history.specs.Agrees.{Agrees};
ghost use Rattle.supervision.specs.Lists.{LentBy, opened_track, track_of};
ghost use Rattle.supervision.specs.Missions.{sheet_of, state_of};

use crate::lists::Lists;
use crate::memory::Memory;
use crate::mission::Mission;
use braking::BrakingModel;
use calls::Phase;
use sheet::Admitted;

impl<M: BrakingModel> Mission<M> {
    // The mission that an admitted sheet is opened as, with the model that it names or any other, and its lists, empty, over the lent memory. The empty history agrees with it.
    pub fn open<'a>(sheet: Admitted, model: M, memory: Memory<'a>) -> (Mission<M>, Lists<'a>)
        ensures model { result.0.model ≡ model }
        ensures sheet { result.0.sheet ≡ sheet }
        ensures phase { result.0.phase ≡ Free }
        ensures clear { result.0.clear ≡ false }
        ensures empty { track_of result.1 ≡ opened_track memory.entry }
        ensures lent { LentBy memory.entry result.1 }
        ensures law { Agrees (sheet_of result.0) (M.BrakingModel.meaning result.0.model) [] (state_of result.0 result.1) }
    {
        let mission = Mission {
            model,
            sheet,
            phase: Phase::Free,
            clear: false,
        };
        (mission, Lists::new(memory))
    }
}
