//! The line of a file that is being read, byte by byte, in a buffer of fixed size.
ghost use Rattle.std.specs.Prelude.{◌≡◌, ◌≤◌, [], length, IfSome, Some};
ghost use Rattle.std.specs.Option.{option_map};
ghost use Rattle.command.specs.Lines.{longer, is_blank};

use std::marker::Model;

/// The most bytes that a line has.
const LIMIT: usize = 10240;

/// The bytes since the last line feed, as far as there is room for them. There is room for one more than a line may have: a line
/// that fills the buffer is too long, and no more of it counts than that it is.
#[derive(Drop)]
pub struct LineBuffer {
    bytes: [u8; 10241],
    len: usize,
}

// Clauses see the line, or nothing where it is too long.
impl Model for LineBuffer {
    ghost use Rattle.std.specs.Prelude.{ℕ, ◌≤◌, List, Option, take};
    ghost use Rattle.command.specs.Lines.{line_in};

    ghost Value = { Option (List ℕ) };

    ghost view = { λ b. line_in (take b.len b.bytes) };

    ghost invariant = { λ b. b.len ≤ 10241 };
}

impl LineBuffer {
    /// A line of no bytes.
    pub fn new() -> LineBuffer
        ensures { result ≡ Some [] }
    {
        LineBuffer {
            bytes: [0; 10241],
            len: 0,
        }
    }

    /// Adds a byte to the line.
    pub fn push(&mut self, byte: u8)
        ensures { self.new ≡ longer self.old byte }
    {
        // a line that fills the buffer is too long already, and stays so
        let at = self.len;
        if at <= LIMIT {
            self.bytes[at] = byte;
            self.len = at + 1;
        }
    }

    /// The line's bytes, unless it is too long.
    pub fn text(&self) -> Option<&[u8]>
        ensures value { option_map (λ x. x.now) result ≡ self.now }
        ensures fits { IfSome result (λ x. length x.now ≤ 10240) }
    {
        if self.len > LIMIT {
            None
        } else {
            Some(&self.bytes[..self.len])
        }
    }

    /// Whether the line has no bytes.
    pub fn is_empty(&self) -> bool
        ensures { result ≡ is_blank self.now }
    {
        self.len == 0
    }

    /// Begins the next line.
    pub fn clear(&mut self)
        ensures { self.new ≡ Some [] }
    {
        self.len = 0;
    }
}
