ghost use Rattle.std.specs.Prelude.{◌≡◌, IfOk};
ghost use Rattle.sheet.specs.declared.values.Values.{Values};
ghost use Rattle.sheet_text.specs.Sheets.{BrakeAsked, FrontAnswers, IsOnlyText, IsTaken, IsText, OneAnswer, OneSheet, SheetAnswers};

use crate::faults::SheetFault;
use crate::sheet_description::description;
use descriptions::{Cursor, ValueFault};
use sheet::{Draft, Values};

// The values of the twelve lines of a text that is read from its first byte. The cursor then stands behind the last line.
// Values that were read fit their lines, so the `unwrap` never fails.
fn read_values(rest: &mut Cursor<'_>) -> Result<Values, ValueFault>
    requires { rest.old.at ≡ 0 }
    ensures answers { FrontAnswers rest.old.text.now rest.new.at result }
    ensures same { rest.new.text ≡ rest.old.text }
{
    let list = description().read(rest)?;
    Ok(Values::from_list(&list).unwrap())
}

// Refuses a brake that does not fit the train.
fn check_brake(values: Values) -> Result<(), SheetFault>
    ensures { BrakeAsked values result }
{
    if values.brake_allowed() {
        Ok(())
    } else {
        Err(SheetFault::GoodsBrake)
    }
}

fn read_draft(text: &[u8]) -> Result<Draft, SheetFault>
    ensures { SheetAnswers text.now result }
{
    let mut rest = Cursor { text, at: 0 };
    let values = read_values(&mut rest)?;
    rest.ends().map_err(SheetFault::LeftOver)?;
    check_brake(values)?;
    Ok(Draft { values })
}

// The draft that a text is the sheet of, or the first fault. A text is taken exactly where it is the text of a sheet that can be admitted, and an accepted text is its sheet's only text.
// `read_draft` reads and promises `answers` alone; the other clauses follow from that one.
pub fn read_sheet(text: &[u8]) -> Result<Draft, SheetFault>
    ensures answers { SheetAnswers text.now result }
    ensures exactly { (v : Values) → IsText text.now v → IsTaken v result }
    ensures only { OneSheet text.now }
    ensures only_text { IfOk result (λ draft. IsOnlyText text.now draft.values) }
    ensures once { OneAnswer text.now }
{
    read_draft(text)
}
