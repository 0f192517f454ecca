ghost use Rattle.std.specs.Prelude.{◌≡◌, min, map, drop, length, take};
ghost use Rattle.history.specs.Lines.{GivesOneCeilingAtMost, GivesOneGrade, KeepsTheLines};
ghost use Rattle.history.specs.Runs.{run};
ghost use Rattle.history.specs.State.{start};
ghost use Rattle.supervision.specs.Lists.{opened_track};
ghost use Rattle.supervision.specs.Missions.{SameTrain, sheet_of, state_of};

use crate::lists::Lists;
use crate::memory::Memory;
use crate::mission::Mission;
use crate::run_outcome::RunOutcome;
use braking::BrakingModel;
use calls::{Call, Record};
use sheet::Admitted;

// Opens the sheet as a mission over the model, with its lists over the lent memory, makes the calls in their order, and closes it.
// Each call leaves its record; where there are fewer records than calls, only as many calls are made.
pub fn run<M: BrakingModel + Drop>(
    sheet: Admitted,
    model: M,
    memory: Memory<'_>,
    records: &mut [Record],
    calls: &[Call],
) -> RunOutcome
    ensures calls_made { result.calls_made ≡ min (length records.old) (length calls.now) }
    ensures calls { map (λ e. e.call) (take result.calls_made records.new) ≡ take result.calls_made calls.now }
    ensures history { take result.calls_made records.new ≡ run sheet.values (M.BrakingModel.meaning model) (start (opened_track memory.entry)) (take result.calls_made calls.now) }
    ensures lines { KeepsTheLines sheet.values (M.BrakingModel.meaning model) (take result.calls_made records.new) }
    ensures grades { GivesOneGrade sheet.values (take result.calls_made records.new) }
    ensures ceilings { GivesOneCeilingAtMost (take result.calls_made records.new) }
    ensures rest { drop result.calls_made records.new ≡ drop result.calls_made records.old }
    ensures draft { result.draft.values ≡ sheet.values }
{
    let (mut mission, mut lists) = Mission::open(sheet, model, memory);
    let calls_made = make_calls(&mut mission, &mut lists, records, calls);
    RunOutcome {
        calls_made,
        draft: mission.close(),
    }
}

// Makes the calls in their order, as long as there is a record for each.
fn make_calls<M: BrakingModel>(
    mission: &mut Mission<M>,
    lists: &mut Lists<'_>,
    records: &mut [Record],
    calls: &[Call],
) -> usize
    ensures calls_made { result ≡ min (length records.old) (length calls.now) }
    ensures history { take result records.new ≡ run (sheet_of mission.old) (M.BrakingModel.meaning mission.old.model) (state_of mission.old lists.old) (take result calls.now) }
    ensures rest { drop result records.new ≡ drop result records.old }
    ensures train { SameTrain mission.old mission.new }
{
    let made = records.len().min(calls.len());
    for i in 0..made {
        records[i] = mission.apply(lists, calls[i]);
    }
    made
}
