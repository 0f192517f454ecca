ghost use Rattle.std.specs.Prelude.{◌≡◌};
ghost use Rattle.descriptions.specs.Rows.{plain_rows};
ghost use Rattle.sheet.specs.Lines.{sheet_lines};
ghost use Rattle.sheet_text.specs.Sheets.{range_number, sheet_layout};

use descriptions::{Description, Layout};
use sheet::lines;

// How many bytes a line may have with its line feed.
const LINE_WINDOW: usize = 32;

// What reading and writing a sheet need to know of its text.
pub(crate) fn description() -> Description<'static>
    ensures rows { plain_rows result.rows.now ≡ sheet_lines }
    ensures layout { result.layout ≡ sheet_layout }
    ensures number { result.range_number ≡ range_number }
{
    Description {
        rows: lines(),
        layout: Layout::Lines {
            window: LINE_WINDOW,
        },
        range_number: sheet::Refusal::OutOfRange.number(),
    }
}
