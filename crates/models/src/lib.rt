#![tactic(auto)]

mod admissible_values;
mod deceleration;
mod etcs;
mod factor;
mod laws;
mod near_target;
mod numbers;
mod pipe_length;
mod pipe_time;
mod rules;
mod rules_model;
mod rules_model_answers;
mod scmt;
mod share;
mod sheet_answers;
mod sheet_model;

pub use etcs::Etcs;
pub use laws::{etcs_keeps_the_laws, scmt_keeps_the_laws, sheet_model_keeps_the_laws};
pub use rules_model::RulesModel;
pub use scmt::Scmt;
pub use sheet_model::SheetModel;
