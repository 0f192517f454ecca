ghost use Rattle.std.specs.Prelude.{◌≡◌, ◌<◌, ◌≤◌, ◌≤ℤ◌};
ghost use Rattle.braking.specs.Answers.{Asking, question_of};
ghost use Rattle.braking.specs.Meaning.{Meaning};
ghost use Rattle.units.specs.declared.limits.TheConstants.{MAX_SPEED, STEEPEST_FALL, STEEPEST_RISE};

use crate::question::Question;
use crate::refusal::Refusal;
use crate::top_speed::TopSpeed;
use std::marker::Model;
use units::{Grade, Speed};

// A question that can be answered: its speeds and its grade are within limits, and its target binds the train. Only `Question::ask` makes one.
#[derive(Clone, Copy, Debug, PartialEq, Eq)]
pub struct Approach {
    speed: Speed,
    target_speed: Speed,
    grade: Grade,
}

impl Model for Approach {
    ghost use Rattle.braking.specs.Meaning.{Question};

    ghost Value = { Question };

    ghost use Rattle.braking.specs.Approaches.{IsAnswerable};

    ghost view = { λ a. record { speed = a.speed.tenths; target_speed = a.target_speed.tenths; grade = a.grade.thousandths } };

    ghost invariant = { IsAnswerable };

    ghost inverse = { λ q. record { speed = record { tenths = q.speed }; target_speed = record { tenths = q.target_speed }; grade = record { thousandths = q.grade } } };
}

impl Approach {
    // The train's speed.
    pub fn speed(self) -> Speed
        ensures value { result.tenths ≡ self.speed }
        ensures slow { self.speed ≤ MAX_SPEED.tenths }
    {
        self.speed
    }

    // The speed that the train is to come down to.
    pub fn target_speed(self) -> Speed
        ensures value { result.tenths ≡ self.target_speed }
        ensures binding { self.target_speed < self.speed }
    {
        self.target_speed
    }

    // The least grade from the rear of the train to the target, or to its front once the target is passed.
    pub fn grade(self) -> Grade
        ensures value { result.thousandths ≡ self.grade }
        ensures not_below { STEEPEST_FALL.thousandths ≤ℤ self.grade }
        ensures not_above { self.grade ≤ℤ STEEPEST_RISE.thousandths }
    {
        self.grade
    }
}

impl Question {
    // The question as one that any model with this top speed answers, or the first reason why each of them turns it down.
    pub fn ask(self, top: TopSpeed) -> Result<Approach, Refusal>
        ensures { (m : Meaning) → m.top ≡ top.speed.tenths → Asking m (question_of self) result }
    {
        let Question {
            speed,
            target_speed,
            grade,
        } = self;
        if speed > top.speed || target_speed > top.speed {
            return Err(Refusal::TooFast);
        }
        if !grade.is_within_limits() {
            return Err(Refusal::GradeOutOfLimits);
        }
        if speed <= target_speed {
            return Err(Refusal::NotBinding);
        }
        Ok(Approach {
            speed,
            target_speed,
            grade,
        })
    }
}
