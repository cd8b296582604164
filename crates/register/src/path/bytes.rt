//! A sheet's path from its bytes, and back.
ghost use Rattle.std.specs.Prelude.{◌≡◌, ◌≤◌, [], length};
ghost use Rattle.std.specs.Cmp.{on_equiv, on_per, partial_equiv_from_equiv};
ghost use Rattle.std.specs.Cmp.Lexicographic.{nat_list_eq_equiv};
ghost use Rattle.std.specs.Option.{option_map};
ghost use Rattle.std.specs.Str.{bytes_eq};
ghost use Rattle.register.specs.Paths.{path_in, path_of};

use crate::path::SheetPath;

impl SheetPath {
    /// The path that these bytes spell; nothing where they are none, or over 40.
    pub fn new(bytes: &[u8]) -> Option<SheetPath>
        ensures { option_map path_of result ≡ path_in bytes.now }
    {
        let len = bytes.len();
        if len < 1 || len > 40 {
            return None;
        }
        let mut held = [0u8; 40];
        held[..len].copy_from_slice(bytes);
        Some(SheetPath { bytes: held, len })
    }

    pub fn as_bytes(&self) -> &[u8]
        ensures value { result.now ≡ path_of self.now }
        ensures fits { length result.now ≤ 40 }
    {
        &self.bytes[..self.len]
    }
}

/// No path: what stands in memory that is not in use yet.
impl Default for SheetPath {
    ghost is_default = { λ p. path_of p ≡ [] };

    fn default() -> SheetPath {
        SheetPath {
            bytes: [0; 40],
            len: 0,
        }
    }
}

// Of the bytes in use alone: those behind them are zero.
impl PartialEq for SheetPath {
    ghost eq = { λ a b. bytes_eq (path_of a) (path_of b) };

    ghost laws = { on_per path_of (partial_equiv_from_equiv nat_list_eq_equiv) };

    fn eq(&self, other: &SheetPath) -> bool {
        self.as_bytes() == other.as_bytes()
    }
}

impl Eq for SheetPath {
    ghost laws = { on_equiv path_of nat_list_eq_equiv };
}
