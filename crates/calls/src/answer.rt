ghost use Rattle.std.specs.Prelude.{◌≡◌};
ghost use Rattle.calls.specs.Answers.{answer_number};

use crate::refusal::Refusal;
use crate::zone::Zone;

// What a call is answered: accepted, with its zone where it is a sample, or why it is refused.
pub type Answer = Result<Option<Zone>, Refusal>;

// 0 where the call is accepted, else the refusal's number.
pub fn answer_number(answer: Answer) -> u8
    ensures { result ≡ answer_number answer }
{
    answer.map_or_else(|refusal| refusal.number(), |_| 0)
}
