#![tactic(auto)]

// Every step of many questions on several sheets, held to an independent calculation.
mod cases;

use braking::Question;
use cases::{GRADES, SHEETS, SPEEDS, TARGETS};
use figures::sheet_a;
use models::SheetModel;
use sheet::{Draft, Rejected, Values};
use std::io;
use units::{Grade, Speed};

// The model of the sheet with these values, if they are admitted. A draft cannot be dropped, so the one that comes back is taken apart.
fn model_of(values: Values) -> Option<SheetModel> {
    match (Draft { values }).admit() {
        Ok(sheet) => {
            let model = SheetModel::new(&sheet);
            let Draft { values: _ } = sheet.into_draft();
            Some(model)
        }
        Err(
            Rejected {
                refusal: _,
                draft: Draft { values: _ },
            },
        ) => None,
    }
}

// One question in a line: its refusal, or its steps.
fn show(rt: &impl Print, model: &SheetModel, number: usize, question: Question) -> io::Result<()> {
    print!(rt;
        "{number} {} {} {}",
        question.speed.tenths, question.target_speed.tenths, question.grade.thousandths
    )?;
    // a refusal is printed, and is no error of the program
    let steps = match model.steps(question) {
        Err(refusal) => return println!(rt; " {refusal}"),
        Ok(steps) => steps,
    };
    print!(rt;
        " {} {} {} {}",
        steps.reaction.ticks, steps.slope.units, steps.reached.fine_steps, steps.net.units
    )?;
    // the distances are columns, without the names that their `Display` gives
    match steps.answer {
        None => println!(rt; " weak"),
        Some(distances) => println!(rt;
            " {} {} {}",
            distances.control.millimetres,
            distances.warning.millimetres,
            distances.nominal.millimetres
        ),
    }
}

// The questions of a sheet, known by its number, at one speed.
fn show_speed(rt: &impl Print, model: &SheetModel, number: usize, speed: Speed) -> io::Result<()> {
    for target in &TARGETS {
        for grade in &GRADES {
            let question = Question {
                speed,
                target_speed: Speed { tenths: *target },
                grade: Grade {
                    thousandths: *grade,
                },
            };
            show(rt, model, number, question)?;
        }
    }
    Ok(())
}

fn main(rt: HostRuntime) -> io::Result<()> {
    for (number, values) in [sheet_a()].iter().chain(&SHEETS).enumerate() {
        match model_of(*values) {
            None => println!(rt; "{number} not admitted")?,
            Some(model) => {
                for speed in &SPEEDS {
                    show_speed(&rt, &model, number, Speed { tenths: *speed })?;
                }
            }
        }
    }
    Ok(())
}
