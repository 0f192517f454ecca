ghost use Rattle.std.specs.Prelude.{◌≡◌, ℕ};

// An item that its owner tells from others by a number. Two items may have the same.
pub trait Keyed {
    ghost key_number: { Self → ℕ };

    fn key(&self) -> u64
        ensures { result ≡ key_number self.now };
}
