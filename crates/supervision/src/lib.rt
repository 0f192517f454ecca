#![tactic(auto)]

mod announced;
mod ceilings;
mod limits;
mod lists;
mod memory;
mod mission;
mod position;
mod run_outcome;
mod running;
mod sampled;
mod sections;
mod stretch;
mod target;
mod zones;

pub use announced::target_place;
pub use lists::Lists;
pub use memory::{MAX_CEILINGS, MAX_SECTIONS, MAX_TARGETS, Memory};
pub use mission::Mission;
pub use position::Position;
pub use run_outcome::RunOutcome;
pub use running::run;
pub use sampled::Sampled;
pub use sections::Sections;
pub use stretch::Stretch;
pub use target::Target;
