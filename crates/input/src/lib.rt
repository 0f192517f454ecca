#![tactic(auto)]

mod limits;
mod reading;
mod texts;

pub use limits::{MAX_BYTES_OF_TEXT, MAX_BYTES_OF_TEXTS, TEXT_END};
pub use reading::read_at_most;
pub use texts::{EndedTexts, ended_texts};
