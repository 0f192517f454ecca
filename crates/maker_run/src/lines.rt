use crate::script::{ALLOWED, DISTANCE, POINT, SECTIONS, SHEET};
use braking::{BrakingModel, PrintedAnswer, Question};
use calls::{Call, Record};
use constant_brake::ConstantBrake;
use session::Shown;
use std::io;
use supervision::{Position, Sections, target_place};
use units::{Distance, Speed};

// A call, for a sample the question that its target is judged by, and what the call was answered. Its zone may be the ceiling's, which no question asks for.
pub(crate) fn show_record(
    rt: &impl Print,
    brake: &ConstantBrake,
    record: Record,
) -> io::Result<()> {
    println!(rt; "call={}", record.call)?;
    if let Call::Sample { place, speed } = record.call {
        show_question(rt, brake, place, speed)?;
    }
    show_answer(rt, record)
}

// The question for the target at a sample: its grade, the distance left, and what the brake answers.
fn show_question(
    rt: &impl Print,
    brake: &ConstantBrake,
    front: Distance,
    speed: Speed,
) -> io::Result<()> {
    // an early end that prints, which `?` does not
    let Some(place) = target_place(POINT, DISTANCE, &SHEET) else {
        return println!(rt; "no place");
    };
    let position = Position::of_front(front, &SHEET);
    let grade = position
        .stretch_to(place)
        .least_grade(Sections { items: &SECTIONS });
    print!(rt;
        "grade={} left={} ",
        grade.thousandths,
        position.distance_left(place).millimetres
    )?;
    let question = Question {
        speed,
        target_speed: ALLOWED,
        grade,
    };
    let answer = PrintedAnswer {
        answer: brake.answer(question),
    };
    println!(rt; "{answer}")
}

fn show_answer(rt: &impl Print, record: Record) -> io::Result<()> {
    let phase = record.phase;
    let traction = if phase.cuts_traction() { "cut" } else { "on" };
    let brake = if phase.applies_brake() { "on" } else { "off" };
    println!(rt; "{} traction={traction} brake={brake}", Shown::from(record))
}
