//! What a register asks of its rows.
ghost use Rattle.std.specs.Prelude.{◌≡◌, ℕ, List};
ghost use Rattle.std.specs.Str.{bytes_eq};

/// A row that has a name.
pub trait Row: Copy {
    /// What a row is looked up by.
    type Key;

    /// the name, as a list of numbers: two rows have the same name where these lists are equal
    ghost name: { Self → List ℕ };

    /// the name that a key asks for
    ghost sought: { Self.Key → List ℕ };

    /// the most rows that a register of this kind holds
    ghost most: { ℕ };

    fn most_rows() -> usize
        ensures { result ≡ most };

    fn key(&self) -> &Self::Key
        ensures { sought result.now ≡ name self.now };

    fn is_named(&self, key: &Self::Key) -> bool
        ensures { result ≡ bytes_eq (name self.now) (sought key.now) };
}
