ghost use Rattle.std.specs.Prelude.{◌≡◌};
ghost use Rattle.braking.specs.Meaning.{Meaning};
ghost use Rattle.braking.specs.Laws.{Lawful};
ghost use Rattle.braking.specs.Answers.{Answered, question_of};

use crate::distances::Distances;
use crate::question::Question;
use crate::refusal::Refusal;
use crate::top_speed::TopSpeed;

// A braking model, known by its meaning alone: what it computes is held to that, and its meaning keeps the laws of `lawful`. A mission runs over any type with this trait.
pub trait BrakingModel {
    ghost meaning: { Self → Meaning };

    // The greatest speed that it answers for.
    fn top_speed(&self) -> TopSpeed
        ensures { result.speed.tenths ≡ (meaning self.now).top };

    // The three distances, none where the brake is too weak on the grade, or the first reason why the question is turned down: a speed above the top, then the grade, then a target that does not bind.
    fn answer(&self, question: Question) -> Result<Option<Distances>, Refusal>
        ensures { Answered (meaning self.now) (question_of question) result };

    ghost lawful: { (m : Self) → Lawful (meaning m) };
}
