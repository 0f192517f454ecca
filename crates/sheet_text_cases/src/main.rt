#![tactic(auto)]

// Reads many texts, each ended by a byte 1, as train sheets, and prints what is answered to each. A sheet that is taken is also written and held against its text.
use input::{MAX_BYTES_OF_TEXTS, TEXT_END, ended_texts, read_at_most};
use sheet::Draft;
use sheet_text::{ROOM, read_admitted, write_sheet};
use std::io;

fn show(rt: &impl Print, text: &[u8]) -> io::Result<()> {
    let sheet = match read_admitted(text) {
        Ok(sheet) => sheet,
        Err(fault) => return println!(rt; "{fault}"),
    };
    let mut memory = [0u8; ROOM];
    let written = write_sheet(&sheet, &mut memory).map(|end| &memory[..end] == text);
    let Draft { values: _ } = sheet.into_draft();
    match written {
        Ok(true) => println!(rt; "sheet"),
        Ok(false) => println!(rt; "sheet written otherwise"),
        Err(refusal) => println!(rt; "{refusal}"),
    }
}

fn main(rt: HostRuntime) -> io::Result<()> {
    let texts = read_at_most(rt.alloc(), rt.stdin(), MAX_BYTES_OF_TEXTS)?;
    for text in ended_texts(texts.as_slice(), TEXT_END) {
        show(&rt, text)?;
    }
    Ok(())
}
