#![tactic(auto)]

mod keyed;
mod list;
mod placed;
mod refusal;

pub use keyed::Keyed;
pub use list::PlaceList;
pub use placed::Placed;
pub use refusal::Refusal;
