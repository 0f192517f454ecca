#![tactic(auto)]

mod brake_deceleration;
mod lead_times;
mod net_deceleration;
mod reaction_time;
mod slopes;
mod speed_loss;
mod speed_reached;
mod steps;
mod stop;
mod stop_steps;

pub use brake_deceleration::BrakeDeceleration;
pub use lead_times::{LeadTime, LeadTimes};
pub use reaction_time::ReactionTime;
pub use slopes::slope;
pub use steps::Steps;
pub use stop::Stop;
