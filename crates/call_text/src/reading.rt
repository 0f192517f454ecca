ghost use Rattle.std.specs.Prelude.{◌≡◌, ℕ, ◌<◌, ◌≤◌, List, ◌++◌, length, Ok as TheCall};
ghost use Rattle.calls.specs.declared.call.Call.{Call as SomeCall};
ghost use Rattle.call_text.specs.CallTexts.{OneCall, IsWithinWindow, IsWritable, written_call};
ghost use Rattle.call_text.specs.Lines.{TextAnswers, OneAnswer};

use crate::call_line::CallLine;
use crate::calls_of_kinds::call_of;
use crate::kind_reading::read_kind_line;
use crate::kinds::KINDS;

fn read_line(text: &[u8]) -> CallLine
    ensures { TextAnswers text.now result.call result.next }
{
    let line = read_kind_line(&KINDS, text);
    CallLine {
        call: line.found.map(call_of),
        next: line.next,
    }
}

// The first line of a text as a call, or its first fault, and where the next line begins. A line is taken exactly where it is the text of a call, which is always within the window.
// `read_line` reads and promises `answers` alone; the other clauses follow from that one.
pub fn read_call(text: &[u8]) -> CallLine
    ensures answers { TextAnswers text.now result.call result.next }
    ensures exactly { (c : SomeCall) (rest : List ℕ) → IsWritable c → text.now ≡ written_call c ++ rest → result.call ≡ TheCall c }
    ensures short { (c : SomeCall) → IsWritable c → IsWithinWindow c }
    ensures only { OneCall }
    ensures once { OneAnswer text.now }
    ensures within { result.next ≤ length text.now }
    ensures goes_on { 0 < length text.now → 0 < result.next }
{
    read_line(text)
}
