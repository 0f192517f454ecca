ghost use Rattle.std.specs.Prelude.{ℕ, List, IfNone, IfSome};
ghost use Rattle.descriptions.specs.Keys.{HasKey};

// What stands behind the key and the equals sign that a line begins with; `None` where it does not begin with them.
pub fn value_behind<'a>(line: &'a [u8], key: &[u8]) -> Option<&'a [u8]>
    ensures some { IfSome result (λ value. HasKey key.now line.now value.now) }
    ensures none { IfNone result ((value : List ℕ) → HasKey key.now line.now value → ⊥) }
{
    line.strip_prefix(key)?.strip_prefix(b"=")
}
