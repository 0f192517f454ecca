#![tactic(auto)]

mod divisor;
mod limits;
mod quantities;
mod rounding;

pub use divisor::Divisor;
pub use limits::{Limits, MAX_PLACE, MAX_SPEED, STEEPEST_FALL, STEEPEST_RISE, call_limits};
pub use quantities::{Deceleration, Distance, FineSpeed, Grade, Speed, Time};
pub use rounding::{quotient_down, quotient_up, signed_quotient_down};
