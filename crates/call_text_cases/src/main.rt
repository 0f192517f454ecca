#![tactic(auto)]

// Reads the first line of each of many texts, each ended by a byte 1, as a call, and prints what is answered to it and where the next line begins.
use call_text::read_call;
use input::{MAX_BYTES_OF_TEXTS, TEXT_END, ended_texts, read_at_most};
use std::io;

fn show(rt: &impl Print, text: &[u8]) -> io::Result<()> {
    let line = read_call(text);
    match line.call {
        Ok(call) => print!(rt; "{call}")?,
        Err(fault) => print!(rt; "{fault}")?,
    }
    println!(rt; " next={}", line.next)
}

fn main(rt: HostRuntime) -> io::Result<()> {
    let texts = read_at_most(rt.alloc(), rt.stdin(), MAX_BYTES_OF_TEXTS)?;
    for text in ended_texts(texts.as_slice(), TEXT_END) {
        show(&rt, text)?;
    }
    Ok(())
}
