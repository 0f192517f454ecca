#![tactic(auto)]

mod admitted;
mod admitting;
mod draft;
mod lists;
mod ranges;
mod refusal;
mod sheet_lines;
mod values;
mod words;

pub use admitted::Admitted;
pub use draft::{Draft, Rejected};
pub use refusal::Refusal;
pub use sheet_lines::{SHEET_LINES, lines};
pub use values::Values;
pub use words::{LengthChoice, Model, Regime, Service};
