//! The rows of the three lists. A row's default stands in memory that is not in use yet, and means nothing.
ghost use Rattle.std.specs.Prelude.{[], ◌∷◌};
ghost use Rattle.register.specs.Listing.{most_accounts, most_offices, most_sheets, number_name};
ghost use Rattle.register.specs.Paths.{path_of};

use crate::path::SheetPath;
use crate::row::Row;

/// What has a number and a key.
#[derive(Clone, Copy, Default)]
pub struct Keyed<N> {
    pub number: N,
    pub key: [u8; 32],
}

/// An account and its key.
pub type Account = Keyed<u16>;

/// A proof office and its key.
pub type Office = Keyed<u8>;

/// A sheet file: its path, the account that may have it freed, and how many cards it prints.
#[derive(Clone, Copy, Default)]
pub struct Sheet {
    pub path: SheetPath,
    pub account: u16,
    pub cards: u32,
}

impl Row for Account {
    type Key = u16;

    ghost name = { number_name };

    ghost sought = { λ number. number ∷ [] };

    ghost most = { most_accounts };

    fn most_rows() -> usize {
        16
    }

    fn key(&self) -> &u16 {
        &self.number
    }

    fn is_named(&self, number: &u16) -> bool {
        self.number == *number
    }
}

impl Row for Office {
    type Key = u8;

    ghost name = { number_name };

    ghost sought = { λ number. number ∷ [] };

    ghost most = { most_offices };

    fn most_rows() -> usize {
        4
    }

    fn key(&self) -> &u8 {
        &self.number
    }

    fn is_named(&self, number: &u8) -> bool {
        self.number == *number
    }
}

impl Row for Sheet {
    type Key = SheetPath;

    ghost name = { λ s. path_of s.path };

    ghost sought = { path_of };

    ghost most = { most_sheets };

    fn most_rows() -> usize {
        64
    }

    fn key(&self) -> &SheetPath {
        &self.path
    }

    fn is_named(&self, path: &SheetPath) -> bool {
        self.path == *path
    }
}
