ghost use Rattle.std.specs.Prelude.{◌≤◌, length, IfOk};
ghost use Rattle.sheet_text.specs.Writing.{Answers, ReadsBack};

use crate::refusal::Refusal;
use crate::sheet_description::description;
use sheet::Admitted;

// How many bytes of memory are asked for, whatever the sheet; none has a longer text.
pub const ROOM: usize = 128;

// Writes the text of the sheet from the first byte on and answers its length in bytes; the bytes behind it stay.
// An admitted sheet written out reads back as itself.
// Memory of less than `ROOM` bytes is refused and not altered. The values of an admitted sheet fit its lines, and there is room, so the `unwrap` never fails.
pub fn write_sheet(sheet: &Admitted, out: &mut [u8]) -> Result<usize, Refusal>
    ensures answers { Answers sheet.now.values out.old out.new result }
    ensures within { IfOk result (λ end. end ≤ length out.new) }
    ensures reads_back { IfOk result (λ end. ReadsBack sheet.now.values out.new end) }
{
    if out.len() < ROOM {
        return Err(Refusal::NoRoom);
    }
    Ok(description().write(&sheet.values().list(), out, 0).unwrap())
}
