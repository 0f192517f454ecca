#![tactic(auto)]

mod call_fault;
mod call_kind;
mod call_line;
mod calls_of_kinds;
mod fault_numbers;
mod kind_line;
mod kind_reading;
mod kinds;
mod reading;

pub use call_fault::CallFault;
pub use call_kind::CallKind;
pub use call_line::CallLine;
pub use kind_line::{Found, KindLine};
pub use kind_reading::read_kind_line;
pub use reading::read_call;
