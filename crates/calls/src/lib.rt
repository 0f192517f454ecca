#![tactic(auto)]

mod answer;
mod call;
mod phase;
mod record;
mod refusal;
mod zone;

pub use answer::{Answer, answer_number};
pub use call::Call;
pub use phase::Phase;
pub use record::Record;
pub use refusal::Refusal;
pub use zone::Zone;
