#![tactic(auto)]

// Many questions to several maker's brakes, and numbers that make no brake, held to an independent calculation.
mod cases;

use braking::{BrakingModel, PrintedAnswer, Question};
use cases::{BRAKES, QUESTIONS, SHEET};
use constant_brake::{BrakeData, ConstantBrake};
use sheet::{Admitted, Draft, Rejected};
use std::io;
use units::{Grade, Speed};

fn main(rt: HostRuntime) -> io::Result<()> {
    match (Draft { values: SHEET }).admit() {
        Ok(sheet) => {
            let shown = show_brakes(&rt, &sheet);
            let Draft { values: _ } = sheet.into_draft();
            shown
        }
        Err(
            Rejected {
                refusal: _,
                draft: Draft { values: _ },
            },
        ) => println!(rt; "not admitted"),
    }
}

fn show_brakes(rt: &impl Print, sheet: &Admitted) -> io::Result<()> {
    for stated in &BRAKES {
        show_brake(rt, *stated, sheet)?;
    }
    Ok(())
}

// What a maker states, then why it makes no brake, or a line for each question.
fn show_brake(rt: &impl Print, stated: BrakeData, sheet: &Admitted) -> io::Result<()> {
    println!(rt;
        "deceleration={} reaction={} top={}",
        stated.deceleration, stated.reaction, stated.top.tenths
    )?;
    match ConstantBrake::new(stated, sheet) {
        Err(refusal) => println!(rt; "{refusal}"),
        Ok(brake) => show_questions(rt, &brake),
    }
}

fn show_questions(rt: &impl Print, brake: &ConstantBrake) -> io::Result<()> {
    for (speed, target, grade) in &QUESTIONS {
        let question = Question {
            speed: Speed { tenths: *speed },
            target_speed: Speed { tenths: *target },
            grade: Grade {
                thousandths: *grade,
            },
        };
        let answer = PrintedAnswer {
            answer: brake.answer(question),
        };
        println!(rt; "speed={speed} target={target} grade={grade} {answer}")?;
    }
    Ok(())
}
