ghost use Rattle.std.specs.Prelude.{◌≡◌};
ghost use Rattle.braking.specs.Answers.{question_of};
ghost use Rattle.models.specs.Formulas.{reaction_time, top};
ghost use Rattle.models.specs.Lawfulness.{model_lawful};
ghost use Rattle.models.specs.Laws.{NeverCut};
ghost use Rattle.models.specs.Meanings.{meaning_of, stop_for};
ghost use Rattle.stopping.specs.Steps.{GivesSteps, HasNumbersOf};

use crate::admissible_values::AdmissibleValues;
use crate::pipe_length::PipeLength;
use crate::rules::Rules;
use crate::rules_model::RulesModel;
use braking::{Approach, BrakingModel, Distances, Question, Refusal, TopSpeed};
use sheet::Admitted;
use std::marker::PhantomData;
use stopping::{ReactionTime, Steps, Stop, slope};

impl<R: Rules> RulesModel<R> {
    // The model with the values of an admitted sheet.
    pub fn new(sheet: &Admitted) -> RulesModel<R>
        ensures { result.sheet.values ≡ sheet.now.values }
    {
        RulesModel {
            sheet: AdmissibleValues {
                values: sheet.values(),
            },
            rules: PhantomData,
        }
    }

    // The steps from a question to its answer, or the first reason why it is turned down. In none of the formulas is a difference cut off at 0, or anything divided by 0.
    pub fn steps(&self, question: Question) -> Result<Steps, Refusal>
        ensures steps { GivesSteps (top R.name self.now.sheet.values.regime) (stop_for R.name self.now.sheet.values) (question_of question) result }
        ensures uncut { NeverCut R.name self.now.sheet.values }
    {
        let approach = question.ask(self.top_speed())?;
        Ok(self.stop(approach).steps())
    }

    // How long the brake takes to act.
    fn reaction_time(&self, approach: Approach) -> ReactionTime
        ensures { result.time.ticks ≡ reaction_time R.name self.now.sheet.values approach.speed approach.target_speed }
    {
        let sheet = &self.sheet;
        let pipe = PipeLength::of(sheet).braking_time(sheet.values.brake, R::counts_ep(sheet));
        ReactionTime {
            time: pipe.times(R::pipe_share(sheet, approach)) + R::delay(),
        }
    }

    // What the distances of an approach are worked out from.
    fn stop(&self, approach: Approach) -> Stop
        ensures { HasNumbersOf (stop_for R.name self.now.sheet.values approach) result }
    {
        Stop {
            speed: approach.speed(),
            target_speed: approach.target_speed(),
            reaction: self.reaction_time(approach),
            slope: slope(approach),
            braking: R::brake_deceleration(&self.sheet, approach),
            lead: self.sheet.lead_times(),
        }
    }
}

impl<R: Rules> BrakingModel for RulesModel<R> {
    ghost meaning = { λ m. meaning_of R.name m.sheet.values };

    ghost lawful = { λ m. model_lawful R.name m.sheet.values m.sheet.valid };

    fn top_speed(&self) -> TopSpeed {
        R::top_speed(self.sheet.values.regime)
    }

    fn answer(&self, question: Question) -> Result<Option<Distances>, Refusal> {
        Ok(self.steps(question)?.answer)
    }
}
