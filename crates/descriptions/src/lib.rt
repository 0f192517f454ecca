#![tactic(auto)]

mod cursor;
mod description;
mod fault_numbers;
mod faults;
mod field;
mod field_reading;
mod first_byte;
mod fitting;
mod keys;
mod layer;
mod layout;
mod layouts;
mod number_range;
mod reading;
mod report;
mod row;
mod row_reading;
mod span;
mod value;
mod writer;
mod writing;

pub use cursor::Cursor;
pub use description::Description;
pub use faults::{TextFault, ValueFault};
pub use fitting::all_fit;
pub use keys::value_behind;
pub use layer::Layer;
pub use layout::Layout;
pub use number_range::NumberRange;
pub use report::Report;
pub use row::{Row, ValueKind};
pub use span::Span;
pub use value::Value;
