#![tactic(auto)]

mod digit;
mod digits;
mod signed_taking;
mod taking;
mod width;
mod writing;

pub use digits::{Digits, SignedDigits};
pub use taking::MAX_DIGITS;
pub use width::digit_count;
pub use writing::write_number;
