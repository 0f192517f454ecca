ghost use Rattle.std.specs.Prelude.{◌≡◌, ◌≤◌, drop, length, take, IfErr, IfOk, IsOk, OnErr};
ghost use Rattle.sheet.specs.declared.values.Values.{Values};
ghost use Rattle.sheet_text.specs.Sheets.{FaultDue, IsText};
ghost use Rattle.supervision.specs.Lists.{opened_track};
ghost use Rattle.supervision.specs.Missions.{sheet_of, state_of};
ghost use Rattle.session.specs.Answers.{AnswersLines, AnswersText};
ghost use Rattle.session.specs.Texts.{sheet_part};

use crate::answered::Answered;
use crate::sheet_lines::sheet_end;
use crate::shown::Shown;
use braking::BrakingModel;
use call_text::read_call;
use calls::Record;
use models::SheetModel;
use sheet::Draft;
use sheet_text::{SheetFault, read_admitted};
use supervision::{Lists, Memory, Mission};

// How many bytes of a text count; what stands behind them is as if it were not there.
pub const MAX_BYTES: usize = 65_536;

// Runs the mission of a text: its first twelve lines are a train sheet, the others are call lines, whose calls are made in turn over the model that the sheet names.
// Gives how many lines were answered, with what is shown of each and each call's record at the start of the lent memory; or, where the text has no sheet, its first fault, and then neither the records nor what is shown is altered.
// The run ends with the text, or at the first line for which no room is left: for what is shown of it, or for its record.
pub fn answer_text(
    text: &[u8],
    memory: Memory<'_>,
    records: &mut [Record],
    shown: &mut [Shown],
) -> Result<Answered, SheetFault>
    ensures fault { IfErr result (FaultDue (sheet_part text.now)) }
    ensures exactly { (sheet : Values) → IsText (sheet_part text.now) sheet → IsOk result }
    ensures answered { IfOk result (λ a. AnswersText text.now (opened_track memory.entry) a records.new shown.new) }
    ensures lines_within { IfOk result (λ a. a.lines ≤ length shown.new) }
    ensures calls_within { IfOk result (λ a. a.calls ≤ length records.new) }
    ensures records_left { IfOk result (λ a. drop a.calls records.new ≡ drop a.calls records.old) }
    ensures shown_left { IfOk result (λ a. drop a.lines shown.new ≡ drop a.lines shown.old) }
    ensures records_unaltered { OnErr result (records.new ≡ records.old) }
    ensures shown_unaltered { OnErr result (shown.new ≡ shown.old) }
{
    let text = &text[..text.len().min(MAX_BYTES)];
    let end = sheet_end(text);
    let sheet = read_admitted(&text[..end])?;
    let model = SheetModel::new(&sheet);
    let (mut mission, mut lists) = Mission::open(sheet, model, memory);
    let answered = answer_lines(&mut mission, &mut lists, &text[end..], records, shown);
    let Draft { values: _ } = mission.close();
    Ok(answered)
}

// Makes the calls of a text's lines in turn, as long as there is room. A line with a fault leaves the mission as it is; one with no line feed in reach is the last, whatever stands behind it.
fn answer_lines<M: BrakingModel>(
    mission: &mut Mission<M>,
    lists: &mut Lists<'_>,
    text: &[u8],
    records: &mut [Record],
    shown: &mut [Shown],
) -> Answered
    ensures lines { AnswersLines (sheet_of mission.old) (M.BrakingModel.meaning mission.old.model) (state_of mission.old lists.old) text.now result records.new shown.new }
    ensures lines_within { result.lines ≤ length shown.new }
    ensures calls_within { result.calls ≤ length records.new }
    ensures records_left { drop result.calls records.new ≡ drop result.calls records.old }
    ensures shown_left { drop result.lines shown.new ≡ drop result.lines shown.old }
{
    let mut lines = 0;
    let mut calls = 0;
    let mut rest = text;
    while !rest.is_empty() && lines < shown.len() {
        let line = read_call(rest);
        shown[lines] = match line.call {
            Ok(call) => {
                if calls == records.len() {
                    break;
                }
                let record = mission.apply(lists, call);
                records[calls] = record;
                calls += 1;
                Shown::from(record)
            }
            Err(fault) => Shown::of_fault(fault, mission.phase()),
        };
        lines += 1;
        rest = &rest[line.next..];
    }
    Answered {
        lines,
        calls,
        ended: rest.is_empty(),
    }
}
