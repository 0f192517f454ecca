mod applying;
mod ceiling_calls;
mod closing;
mod next_phase;
mod opening;
mod releasing;
mod sampling;
mod section_calls;
mod target_calls;

use calls::Phase;
use sheet::Admitted;

// An open mission under one braking model. It is moved and never copied: it was opened, and it is closed.
// Its lists stand beside it and go with each of its calls. Give each call the lists that `open` gave with this mission: those of another are not told apart, and the law says nothing of them.
pub struct Mission<M> {
    model: M,
    sheet: Admitted,
    phase: Phase,
    // The last accepted call was a sample in zone 0, whatever the phase.
    clear: bool,
}
