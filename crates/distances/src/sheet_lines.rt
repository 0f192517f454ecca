use sheet::Admitted;
use sheet_text::{ROOM, write_sheet};
use std::io;

// The text of the sheet.
pub(crate) fn show_sheet(rt: &impl Print, sheet: &Admitted) -> io::Result<()> {
    let mut memory = [0u8; ROOM];
    match write_sheet(sheet, &mut memory) {
        Ok(end) => rt.write_all(&memory[..end]),
        Err(refusal) => println!(rt; "{refusal}"),
    }
}
