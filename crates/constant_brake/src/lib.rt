#![tactic(auto)]

mod answering;
mod brake;
mod brake_data;
mod laws;
mod making;
mod refusal;

pub use brake::ConstantBrake;
pub use brake_data::BrakeData;
pub use laws::constant_brake_keeps_the_laws;
pub use refusal::Refusal;
