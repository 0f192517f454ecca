ghost use Rattle.std.specs.Prelude.{◌≡◌, IfOk, IfSome, take};

use std::alloc::Global;
use std::io;
use std::io::Read;

// The first bytes of what a reader has left, at most so many. Of the standard input the contract promises nothing, since what it has left is unknown.
pub fn read_at_most<R: Read + Drop>(heap: Global, reader: R, max_bytes: u64) -> io::Result<Vec<u8>>
    ensures { IfOk result (λ v. IfSome (R.remaining reader) (λ xs. v.items ≡ take max_bytes xs)) }
{
    let mut text = Vec::new(heap);
    reader.take(max_bytes).read_to_end(&mut text)?;
    Ok(text)
}
