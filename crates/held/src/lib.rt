//! Bytes held by value: any number of them up to a limit, with no heap.
#![tactic(auto)]

ghost use Rattle.std.specs.Prelude.{◌≡◌, ◌+◌, ◌≤◌, [], ◌++◌, cond, length, Some, None, nat_le};

use std::marker::Model;

/// At most `N` bytes.
#[derive(Clone, Copy, Default, PartialEq, Eq)]
pub struct Held<const N: usize> {
    bytes: [u8; N],
    len: usize,
}

// Clauses see the bytes. Those of the array that are not in use are zero, so that equal bytes are the same value.
impl<const N: usize> Model for Held<N> {
    ghost use Rattle.std.specs.Prelude.{ℕ, ◌-◌, List, ◌++◌, length, take, replicate};
    ghost use Rattle.held.specs.Padded.{Padded, padded_again, length-padded};

    ghost Value = { List ℕ };

    ghost view = { λ h. take h.len h.bytes };

    ghost invariant = { λ h. Padded N h.bytes h.len };

    ghost inverse = { λ bytes. record { bytes = bytes ++ replicate (N - length bytes) 0; len = length bytes } };

    ghost inverse_ok = { λ h p i. record { bytes = padded_again N h.bytes h.len p i; len = length-padded N h.bytes h.len p i } };
}

impl<const N: usize> Held<N> {
    /// No bytes.
    pub fn new() -> Held<N>
        ensures { result ≡ [] }
    {
        Held {
            bytes: [0; N],
            len: 0,
        }
    }

    /// These bytes, if there are at most `N`.
    pub fn holding(bytes: &[u8]) -> Option<Held<N>>
        ensures { result ≡ cond (nat_le (length bytes.now) N) (Some bytes.now) None }
    {
        if bytes.len() > N {
            return None;
        }
        let mut held = Held::new();
        held.push(bytes);
        Some(held)
    }

    /// Adds bytes at the end.
    pub fn push(&mut self, bytes: &[u8])
        requires { length self.old + length bytes.now ≤ N }
        ensures { self.new ≡ self.old ++ bytes.now }
    {
        let end = self.len + bytes.len();
        // the language lends a part of a slice, and none of an array whose length is a parameter
        let room = &mut self.bytes[..];
        room[self.len..end].copy_from_slice(bytes);
        self.len = end;
    }

    pub fn as_bytes(&self) -> &[u8]
        ensures value { result.now ≡ self.now }
        ensures fits { length result.now ≤ N }
    {
        &self.bytes[..self.len]
    }
}
