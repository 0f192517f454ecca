#![tactic(auto)]

// A mission with a maker's own brake: a short approach to a target on a falling grade, and into a yard with a ceiling, call by call.
mod driving;
mod lines;
mod script;

use constant_brake::ConstantBrake;
use driving::drive;
use lines::show_record;
use script::{BRAKE, CALLS, SHEET};
use sheet::{Admitted, Draft, Rejected};
use std::io;

fn main(rt: HostRuntime) -> io::Result<()> {
    match (Draft { values: SHEET }).admit() {
        Ok(sheet) => show_mission(&rt, sheet),
        Err(
            Rejected {
                refusal,
                draft: Draft { values: _ },
            },
        ) => println!(rt; "{refusal}"),
    }
}

// The mission of the sheet with the maker's brake.
fn show_mission(rt: &impl Print, sheet: Admitted) -> io::Result<()> {
    match ConstantBrake::new(BRAKE, &sheet) {
        Ok(brake) => show_records(rt, sheet, brake),
        Err(refusal) => {
            let Draft { values: _ } = sheet.into_draft();
            println!(rt; "{refusal}")
        }
    }
}

// Makes the calls of the script, and shows the record of each.
fn show_records(rt: &impl Print, sheet: Admitted, brake: ConstantBrake) -> io::Result<()> {
    for record in &drive(sheet, brake, &CALLS) {
        show_record(rt, &brake, *record)?;
    }
    Ok(())
}
