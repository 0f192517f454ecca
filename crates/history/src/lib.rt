#![tactic(auto)]

ghost use Rattle.braking.specs.Laws.{Lawful};
ghost use Rattle.history.specs.Examples.{RuledOut, Worked, tenfold};
ghost use Rattle.history.specs.Theorem.{EveryPlaceHasOneCeilingAtMost, EveryRunKeepsTheLines, EveryStepAgrees, EveryStepKeepsValid, EveryStretchHasOneGrade, TheStartAgrees};

// A mission as opened agrees with the empty history.
pub fn the_start_agrees()
    ensures { TheStartAgrees }
{}

// Whatever history keeps the three lines and agrees with a mission and its lists: with any call behind it, it does so after that call.
pub fn every_step_agrees()
    ensures { EveryStepAgrees }
{}

// Every call keeps what the type of a mission's lists holds of the items in them.
pub fn every_step_keeps_valid()
    ensures { EveryStepKeepsValid }
{}

// Whatever is called, the history of a mission over a lawful model keeps the three lines.
pub fn every_run_keeps_the_lines()
    ensures { EveryRunKeepsTheLines }
{}

// Every place and every stretch has one grade; so has every stretch ahead, from the rear of the sheet's train on, and every binding target has one question.
pub fn every_stretch_has_one_grade()
    ensures { EveryStretchHasOneGrade }
{}

// At every place one ceiling holds, or none has begun, so that the lines speak of one at most.
pub fn every_place_has_one_ceiling_at_most()
    ensures { EveryPlaceHasOneCeilingAtMost }
{}

// Runs worked out in numbers over a lawful model, and histories that the three lines rule out.
pub fn worked_histories()
    ensures lawful { Lawful tenfold }
    ensures worked { Worked }
    ensures ruled_out { RuledOut }
{}
