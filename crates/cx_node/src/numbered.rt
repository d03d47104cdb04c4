//! Links as a table and a row see them.

ghost use Rattle.std.specs.Prelude.{ℕ, ◌≡◌};

/// A live link, of which a table knows its number alone.
pub trait Numbered: Drop {
    ghost number_of: { Self → ℕ };

    /// The number of the link at its node.
    fn number(&self) -> u32
        ensures { result ≡ number_of self.now };
}
