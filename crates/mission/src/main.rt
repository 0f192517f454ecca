#![tactic(auto)]

// Runs a mission: the standard input holds a train sheet of twelve lines and then call lines; each call line is answered in its turn.
use calls::Record;
use input::read_at_most;
use place_list::Placed;
use session::{MAX_BYTES, Shown, answer_text};
use std::io;
use supervision::{MAX_CEILINGS, MAX_SECTIONS, MAX_TARGETS, Memory};

fn main(rt: HostRuntime) -> io::Result<()> {
    let text = read_at_most(rt.alloc(), rt.stdin(), MAX_BYTES as u64)?;
    let mut sections = [Placed::default(); MAX_SECTIONS];
    let mut targets = [Placed::default(); MAX_TARGETS];
    let mut ceilings = [Placed::default(); MAX_CEILINGS];
    // a line ends with its feed or with the text, so that this is room for all
    let max_lines = text.split(|byte| *byte == b'\n').count();
    let mut records = vec![in rt.alloc(); Record::BLANK; max_lines]?;
    let mut shown = vec![in rt.alloc(); Shown::BLANK; max_lines]?;
    let memory = Memory {
        sections: &mut sections,
        targets: &mut targets,
        ceilings: &mut ceilings,
    };
    match answer_text(text.as_slice(), memory, &mut records, &mut shown) {
        Ok(answered) => {
            for line in &shown[..answered.lines] {
                println!(rt; "{line}")?;
            }
            Ok(())
        }
        Err(fault) => println!(rt; "{fault}"),
    }
}
