#![tactic(auto)]

mod answered;
mod answering;
mod sheet_lines;
mod shown;

pub use answered::Answered;
pub use answering::{MAX_BYTES, answer_text};
pub use sheet_lines::sheet_end;
pub use shown::Shown;
