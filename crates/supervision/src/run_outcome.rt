use sheet::Draft;

// What is left of a mission that was opened, given its calls and closed.
pub struct RunOutcome {
    // how many of the calls were made, and so how many records were written
    pub calls_made: usize,
    // the draft of the mission's sheet
    pub draft: Draft,
}
