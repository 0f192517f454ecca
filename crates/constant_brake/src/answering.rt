ghost use Rattle.std.specs.Prelude.{◌≡◌};
ghost use Rattle.braking.specs.Answers.{question_of};
ghost use Rattle.constant_brake.specs.Brakes.{brake_meaning, brake_stop};
ghost use Rattle.constant_brake.specs.Formulas.{braking_units, reaction_ticks};
ghost use Rattle.constant_brake.specs.Lawfulness.{brake_lawful};
ghost use Rattle.constant_brake.specs.Plain.{Plain};
ghost use Rattle.stopping.specs.Laws.{StopsUncut};
ghost use Rattle.stopping.specs.Steps.{GivesSteps, HasNumbersOf};

use crate::brake::ConstantBrake;
use braking::{Approach, BrakingModel, Distances, Question, Refusal, TopSpeed};
use stopping::{BrakeDeceleration, ReactionTime, Steps, Stop, slope};
use units::Time;

// How many units of deceleration are 1 mm/s².
const UNITS_PER_MM_PER_S2: u64 = 10_000;

// How many ticks are a tenth of a second.
const TICKS_PER_TENTH: u64 = 10_000_000;

impl ConstantBrake {
    // The steps from a question to its answer, or the first reason why it is turned down. In none of the formulas is a difference cut off at 0, or anything divided by 0.
    pub fn steps(&self, question: Question) -> Result<Steps, Refusal>
        ensures steps { GivesSteps self.now.stated.top.tenths (brake_stop self.now) (question_of question) result }
        ensures plain { Plain self.now.stated self.now.lead.warning.tenths self.now.lead.hysteresis.tenths }
        ensures uncut { StopsUncut self.now.stated.top.tenths (brake_stop self.now) }
    {
        let approach = question.ask(self.top_speed())?;
        Ok(self.stop(approach).steps())
    }

    // What the distances of an approach are worked out from.
    fn stop(&self, approach: Approach) -> Stop
        ensures { HasNumbersOf (brake_stop self.now approach) result }
    {
        let slope = slope(approach);
        Stop {
            speed: approach.speed(),
            target_speed: approach.target_speed(),
            reaction: self.reaction_time(),
            slope,
            braking: self.brake_deceleration(),
            lead: self.lead,
        }
    }

    // What the brake does by itself.
    fn brake_deceleration(&self) -> BrakeDeceleration
        ensures { result.units ≡ braking_units self.now.stated }
    {
        BrakeDeceleration {
            units: UNITS_PER_MM_PER_S2 * u64::from(self.stated.deceleration),
        }
    }

    // How long the brake takes to act.
    fn reaction_time(&self) -> ReactionTime
        ensures { result.time.ticks ≡ reaction_ticks self.now.stated }
    {
        ReactionTime {
            time: Time {
                ticks: TICKS_PER_TENTH * u64::from(self.stated.reaction),
            },
        }
    }
}

impl BrakingModel for ConstantBrake {
    ghost meaning = { brake_meaning };

    ghost lawful = { λ b. brake_lawful b.stated b.lead.warning.tenths b.lead.hysteresis.tenths b.brief b.slow b.lead.warning.brief b.lead.hysteresis.brief };

    fn top_speed(&self) -> TopSpeed {
        TopSpeed {
            speed: self.stated.top,
        }
    }

    fn answer(&self, question: Question) -> Result<Option<Distances>, Refusal> {
        Ok(self.steps(question)?.answer)
    }
}
