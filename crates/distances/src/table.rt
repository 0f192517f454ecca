use braking::{BrakingModel, Question};
use models::SheetModel;
use std::io;
use units::{Grade, Speed};

// The grades of the table, in the order of its rows.
const GRADES: [i64; 7] = [-35, -21, -20, -10, 0, 10, 35];

// One row: the speed in tenths of km/h, the grade in thousandths, and the distances of a stop in mm.
fn show_row(rt: &impl Print, model: &SheetModel, speed: Speed, grade: Grade) -> io::Result<()> {
    let question = Question {
        speed,
        target_speed: Speed { tenths: 0 },
        grade,
    };
    print!(rt; "{} {} ", speed.tenths, grade.thousandths)?;
    // the distances are columns, without the names that their `Display` gives
    match model.answer(question) {
        Err(refusal) => println!(rt; "{refusal}"),
        Ok(None) => println!(rt; "weak - -"),
        Ok(Some(distances)) => println!(rt;
            "{} {} {}",
            distances.control.millimetres,
            distances.warning.millimetres,
            distances.nominal.millimetres
        ),
    }
}

// For a stop, a row for each speed in steps of 10 km/h up to the top, and at each speed for each grade.
pub(crate) fn show_table(rt: &impl Print, model: &SheetModel) -> io::Result<()> {
    println!(rt; "speed grade control warning nominal")?;
    for speed in (100..=model.top_speed().speed.tenths).step_by(100) {
        for grade in &GRADES {
            let grade = Grade {
                thousandths: *grade,
            };
            show_row(rt, model, Speed { tenths: speed }, grade)?;
        }
    }
    Ok(())
}
