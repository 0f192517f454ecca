#![tactic(auto)]

mod admitting;
mod fault_numbers;
mod faults;
mod reading;
mod refusal;
mod sheet_description;
mod writing;

pub use admitting::read_admitted;
pub use faults::SheetFault;
pub use reading::read_sheet;
pub use refusal::Refusal;
pub use writing::{ROOM, write_sheet};
