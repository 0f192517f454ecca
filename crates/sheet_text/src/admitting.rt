ghost use Rattle.std.specs.Prelude.{IfOk};
ghost use Rattle.sheet.specs.declared.values.Values.{Values};
ghost use Rattle.sheet_text.specs.Sheets.{AdmittedAnswers, IsAdmitted, IsOnlyText, IsText, OneSheet};

use crate::faults::SheetFault;
use crate::reading::read_sheet;
use sheet::Admitted;

// The admitted sheet that a text is the text of, or the first fault. An accepted text is its sheet's only text.
// A sheet that was read is always admitted, so the `unwrap` never fails.
pub fn read_admitted(text: &[u8]) -> Result<Admitted, SheetFault>
    ensures answers { AdmittedAnswers text.now result }
    ensures exactly { (v : Values) → IsText text.now v → IsAdmitted v result }
    ensures only { OneSheet text.now }
    ensures only_text { IfOk result (λ sheet. IsOnlyText text.now sheet.values) }
{
    Ok(read_sheet(text)?.admit().unwrap())
}
