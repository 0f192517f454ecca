#![tactic(auto)]

mod approach;
mod braking_model;
mod distances;
mod printed_answer;
mod question;
mod refusal;
mod top_speed;

pub use approach::Approach;
pub use braking_model::BrakingModel;
pub use distances::Distances;
pub use printed_answer::PrintedAnswer;
pub use question::Question;
pub use refusal::Refusal;
pub use top_speed::TopSpeed;
