//! A register: rows of one kind in lent memory, found by their name.
ghost use Rattle.std.specs.Prelude.{◌≡◌, [], map};
ghost use Rattle.register.specs.Adding.{Adds};
ghost use Rattle.register.specs.Names.{place_in};

use crate::row::Row;
use refusal::Refusal;
use std::marker::Model;

/// Rows of one kind. Those in use stand at the front of the memory, in the order in which they were added.
#[derive(Drop)]
pub struct Register<'a, R: Row> {
    rows: &'a mut [R],
    used: usize,
}

// Clauses see the rows in use, and the places behind them.
impl<'a, R: Row> Model for Register<'a, R> {
    ghost use Rattle.std.specs.Prelude.{◌≤◌, take, drop, length};
    ghost use Rattle.register.specs.Table.{Table};

    ghost Value = { Table R };

    ghost view = { λ r. record { listed = take r.used r.rows.now; spare = drop r.used r.rows.now } };

    ghost invariant = { λ r. r.used ≤ length r.rows.now };
}

impl<'a, R: Row> Register<'a, R> {
    /// An empty register in this memory, whatever the memory holds.
    pub fn new(rows: &'a mut [R]) -> Register<'a, R>
        ensures { (result.listed ≡ []) × (result.spare ≡ rows.old) }
    {
        Register { rows, used: 0 }
    }

    /// The rows in use.
    pub fn rows(&self) -> &[R]
        ensures { result.now ≡ self.now.listed }
    {
        &self.rows[..self.used]
    }

    /// The place of the first row of this name, or nothing.
    pub fn find(&self, key: &R::Key) -> Option<usize>
        ensures { result ≡ place_in (R.Row.sought key.now) (map R.Row.name self.now.listed) }
    {
        self.rows().iter().position(|row| row.is_named(key))
    }

    /// Adds a row behind the others. Refuses a name that is listed already, then a row for which there is no room.
    pub fn add(&mut self, row: R) -> Result<(), Refusal>
        ensures { Adds R.Row.name R.Row.most [] row self.old result self.new }
    {
        let at = self.used;
        if self.find(row.key()).is_some() {
            return Err(Refusal::AlreadyListed);
        }
        if at >= R::most_rows() || at >= self.rows.len() {
            return Err(Refusal::ListFull);
        }
        self.rows[at] = row;
        self.used = at + 1;
        Ok(())
    }
}
