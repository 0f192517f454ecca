ghost use Rattle.std.specs.Prelude.{◌≡◌, ◌+◌, ◌%◌};

// The byte of the last decimal digit of a number. The cast loses nothing, since a remainder is below 10.
pub(crate) fn last_digit(number: u64) -> u8
    ensures { result ≡ 48 + number % 10 }
{
    b'0' + (number % 10) as u8
}
