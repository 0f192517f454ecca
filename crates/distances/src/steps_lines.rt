use braking::Question;
use models::SheetModel;
use std::io;

// A question with each of its steps, or its refusal.
pub(crate) fn show_steps(
    rt: &impl Print,
    model: &SheetModel,
    question: Question,
) -> io::Result<()> {
    println!(rt;
        "speed={} target={} grade={}",
        question.speed.tenths, question.target_speed.tenths, question.grade.thousandths
    )?;
    // a refusal is printed, and is no error of the program
    let steps = match model.steps(question) {
        Err(refusal) => return println!(rt; "{refusal}"),
        Ok(steps) => steps,
    };
    println!(rt; "reaction={}", steps.reaction.ticks)?;
    println!(rt; "slope={}", steps.slope.units)?;
    println!(rt; "reached={}", steps.reached.fine_steps)?;
    println!(rt; "net={}", steps.net.units)?;
    // a line for each distance, where their `Display` puts them into one
    match steps.answer {
        None => println!(rt; "weak"),
        Some(distances) => println!(rt;
            "control={}\nwarning={}\nnominal={}",
            distances.control.millimetres,
            distances.warning.millimetres,
            distances.nominal.millimetres
        ),
    }
}
