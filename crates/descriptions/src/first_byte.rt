ghost use Rattle.std.specs.Prelude.{◌≡◌, ◌==◌, position};

// The index of the first of the bytes that is the wanted one.
pub(crate) fn first_of(bytes: &[u8], wanted: u8) -> Option<usize>
    ensures { result ≡ position (λ b. b == wanted) bytes.now }
{
    bytes.iter().position(|byte| *byte == wanted)
}
