use crate::refusal::Refusal;
use crate::values::Values;

// A train sheet as it was written down, with any content: nothing of it has been asked yet. It can be neither copied nor dropped.
pub struct Draft {
    pub values: Values,
}

// A draft that was not admitted, with the reason.
pub struct Rejected {
    pub refusal: Refusal,
    pub draft: Draft,
}
