ghost use Rattle.std.specs.Prelude.{◌≡◌, ◌==◌, ℕ, List, [], ◌∷◌, ◌++◌, position};
ghost use Rattle.std.specs.List.{slice_split};
ghost use Rattle.input.specs.Texts.{texts_left};

// Texts that each end with a byte, one after the other, in the memory that they were read into.
#[derive(Clone, Debug, PartialEq, Eq, Drop)]
pub struct EndedTexts<'a> {
    // from the next text on
    rest: &'a [u8],
    end: u8,
}

// The texts that each end with a byte, without it; what stands behind the last such byte is no text.
pub fn ended_texts(bytes: &[u8], end: u8) -> EndedTexts<'_>
    ensures { (last : List ℕ) × (texts_left result ++ last ∷ [] ≡ slice_split (λ b. b == end) bytes.now) }
{
    EndedTexts { rest: bytes, end }
}

impl<'a> Iterator for EndedTexts<'a> {
    ghost use Rattle.std.specs.Iterator.{YieldsFirstBy, item_count};

    type Item = &'a [u8];

    ghost next_gives = { YieldsFirstBy (λ text. text.now) texts_left };

    ghost remaining = { item_count texts_left };

    fn next(&mut self) -> Option<&'a [u8]> {
        let at = first_of(self.rest, self.end)?;
        let text = &self.rest[..at];
        self.rest = &self.rest[at + 1..];
        Some(text)
    }
}

// The index of the first of the bytes that is the wanted one.
fn first_of(bytes: &[u8], wanted: u8) -> Option<usize>
    ensures { result ≡ position (λ b. b == wanted) bytes.now }
{
    bytes.iter().position(|byte| *byte == wanted)
}
