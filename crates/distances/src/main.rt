#![tactic(auto)]

// The workshop table of a train sheet: the sheet is read from the standard input, printed back and admitted, then come the steps of one question and a row for each speed and grade.
mod sheet_lines;
mod steps_lines;
mod table;

use braking::Question;
use input::{MAX_BYTES_OF_TEXT, read_at_most};
use models::SheetModel;
use sheet::Draft;
use sheet_lines::show_sheet;
use sheet_text::read_admitted;
use std::io;
use steps_lines::show_steps;
use table::show_table;
use units::{Grade, Speed};

// The question whose steps are shown: from 100 km/h to a stop on the level.
const SHOWN: Question = Question {
    speed: Speed { tenths: 1_000 },
    target_speed: Speed { tenths: 0 },
    grade: Grade { thousandths: 0 },
};

fn main(rt: HostRuntime) -> io::Result<()> {
    let text = read_at_most(rt.alloc(), rt.stdin(), MAX_BYTES_OF_TEXT)?;
    // a fault of the sheet is printed, and is no error of the program
    let sheet = match read_admitted(text.as_slice()) {
        Ok(sheet) => sheet,
        Err(fault) => return println!(rt; "{fault}"),
    };
    let model = SheetModel::new(&sheet);
    let shown = show_sheet(&rt, &sheet);
    let Draft { values: _ } = sheet.into_draft();
    shown?;
    println!(rt; "admitted")?;
    show_steps(&rt, &model, SHOWN)?;
    show_table(&rt, &model)
}
