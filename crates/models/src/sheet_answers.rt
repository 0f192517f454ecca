ghost use Rattle.std.specs.Prelude.{◌≡◌};
ghost use Rattle.braking.specs.Answers.{question_of};
ghost use Rattle.models.specs.Meanings.{meaning_of, stop_for};
ghost use Rattle.models.specs.Named.{name_of, values_of};
ghost use Rattle.models.specs.Formulas.{top};
ghost use Rattle.models.specs.Laws.{NeverCut};
ghost use Rattle.stopping.specs.Steps.{GivesSteps};
ghost use Rattle.sheet.specs.declared.words.Model.TheVariants.{Scmt, Etcs};
ghost use Rattle.models.specs.declared.sheet_model.SheetModel.TheVariants.{Scmt as AsScmt, Etcs as AsEtcs};
ghost use Rattle.models.specs.Lawfulness.{model_lawful};

use crate::etcs::Etcs;
use crate::scmt::Scmt;
use crate::sheet_model::SheetModel;
use braking::{BrakingModel, Distances, Question, Refusal, TopSpeed};
use sheet::{Admitted, Model};
use stopping::Steps;

// All but `new` hand a call on to the model that is there.
impl SheetModel {
    // The model that an admitted sheet names, with its values.
    pub fn new(sheet: &Admitted) -> SheetModel
        ensures name { name_of result ≡ sheet.now.values.model }
        ensures values { values_of result ≡ sheet.now.values }
    {
        match sheet.values().model {
            Model::Scmt => SheetModel::Scmt(Scmt::new(sheet)),
            Model::Etcs => SheetModel::Etcs(Etcs::new(sheet)),
        }
    }

    // The steps from a question to its answer, or the first reason why it is turned down.
    pub fn steps(&self, question: Question) -> Result<Steps, Refusal>
        ensures steps { GivesSteps (top (name_of self.now) (values_of self.now).regime) (stop_for (name_of self.now) (values_of self.now)) (question_of question) result }
        ensures uncut { NeverCut (name_of self.now) (values_of self.now) }
    {
        match self {
            SheetModel::Scmt(model) => model.steps(question),
            SheetModel::Etcs(model) => model.steps(question),
        }
    }
}

impl BrakingModel for SheetModel {
    ghost meaning = { λ m. meaning_of (name_of m) (values_of m) };

    ghost lawful = { elim [
      | AsScmt m ↦ model_lawful Scmt m.sheet.values m.sheet.valid
      | AsEtcs m ↦ model_lawful Etcs m.sheet.values m.sheet.valid
    ] };

    fn top_speed(&self) -> TopSpeed {
        match self {
            SheetModel::Scmt(model) => model.top_speed(),
            SheetModel::Etcs(model) => model.top_speed(),
        }
    }

    fn answer(&self, question: Question) -> Result<Option<Distances>, Refusal> {
        match self {
            SheetModel::Scmt(model) => model.answer(question),
            SheetModel::Etcs(model) => model.answer(question),
        }
    }
}
