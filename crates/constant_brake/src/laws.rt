ghost use Rattle.constant_brake.specs.Laws.{ConstantBrakeKeepsTheLaws};

// Whatever numbers in range a maker states, and whatever admissible sheet the times are of, the brake keeps the laws of a braking model.
pub fn constant_brake_keeps_the_laws()
    ensures { ConstantBrakeKeepsTheLaws }
{}
