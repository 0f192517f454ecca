ghost use Rattle.std.specs.Prelude.{◌≡◌, ◌≤◌, length, decimal};

// How many decimal digits a number has, 1 to 20.
#[tactic(auto, using(crate::proofs::Counts::count_by_power))]
pub fn digit_count(number: u64) -> usize
    ensures count { result ≡ length (decimal number) }
    ensures some { 1 ≤ result }
    ensures few { result ≤ 20 }
{
    // the logarithm is at most 19, so the cast loses nothing
    number.max(1).ilog10() as usize + 1
}
