ghost use Rattle.models.specs.Laws.{KeepsTheLaws, SheetModelKeepsTheLaws};
ghost use Rattle.sheet.specs.declared.words.Model.TheVariants.{Scmt, Etcs};

// Whatever admissible sheet it has its values from, the model scmt keeps the laws of a braking model.
pub fn scmt_keeps_the_laws()
    ensures { KeepsTheLaws Scmt }
{}

// The same of etcs.
pub fn etcs_keeps_the_laws()
    ensures { KeepsTheLaws Etcs }
{}

// The same of the model that the sheet itself names.
pub fn sheet_model_keeps_the_laws()
    ensures { SheetModelKeepsTheLaws }
{}
