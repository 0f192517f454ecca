use crate::call_fault::CallFault;
use calls::Call;

// The first line of a text as a call, or its first fault.
#[derive(Clone, Copy, Debug, PartialEq, Eq)]
pub struct CallLine {
    pub call: Result<Call, CallFault>,
    // the byte behind its line feed, or the text's end where there is no line feed in reach
    pub next: usize,
}
