ghost use Rattle.std.specs.Prelude.{◌≡◌, map};
ghost use Rattle.history.specs.Lines.{GivesOneCeilingAtMost, GivesOneGrade, KeepsTheLines};
ghost use Rattle.history.specs.Runs.{run as history_of};
ghost use Rattle.history.specs.State.{empty_track, full_capacity, start};
ghost use Rattle.constant_brake.specs.Brakes.{brake_meaning};

use calls::{Call, Record};
use constant_brake::ConstantBrake;
use place_list::Placed;
use sheet::{Admitted, Draft};
use supervision::{MAX_CEILINGS, MAX_SECTIONS, MAX_TARGETS, Memory, RunOutcome, run};

// Opens the sheet with the brake, makes the calls and closes it. The mission's law holds for this brake, by the contract of run.
pub(crate) fn drive<const CALLS: usize>(
    sheet: Admitted,
    brake: ConstantBrake,
    calls: &[Call; CALLS],
) -> [Record; CALLS]
    ensures calls { map (λ e. e.call) result ≡ calls.now }
    ensures history { result ≡ history_of sheet.values (brake_meaning brake) (start (empty_track full_capacity)) calls.now }
    ensures lines { KeepsTheLines sheet.values (brake_meaning brake) result }
    ensures grades { GivesOneGrade sheet.values result }
    ensures ceilings { GivesOneCeilingAtMost result }
{
    let mut sections = [Placed::default(); MAX_SECTIONS];
    let mut targets = [Placed::default(); MAX_TARGETS];
    let mut ceilings = [Placed::default(); MAX_CEILINGS];
    let memory = Memory {
        sections: &mut sections,
        targets: &mut targets,
        ceilings: &mut ceilings,
    };
    let mut records = [Record::BLANK; CALLS];
    let RunOutcome {
        calls_made: _,
        draft: Draft { values: _ },
    } = run(sheet, brake, memory, &mut records, calls);
    records
}
