//! Message authentication codes: what the box asks of one, and how two tags are compared.
#![tactic(auto)]

ghost use Rattle.std.specs.Prelude.{◌≡◌, ℕ, ◌≤◌, List, length};
ghost use Rattle.mac.specs.Tagging.{tagged};

use refusal::Refusal;

pub mod comparison;

/// A message authentication code: it turns a key of 32 bytes and a message into a tag of 32 bytes.
pub trait Mac {
    /// the tag of a message under a key: one fixed function of the two
    ghost tagof: { Self → List ℕ → List ℕ → List ℕ };

    /// the most bytes that a message may have
    ghost limit: { Self → ℕ };

    /// The tag of a message; a message over the limit is refused, and nothing else is.
    fn tag(&self, key: &[u8; 32], message: &[u8]) -> Result<[u8; 32], Refusal>
        ensures { result ≡ tagged (limit self.now) (tagof self.now) key.now message.now };

    ghost sized: { (mac : Self) (key message : List ℕ) → length (tagof mac key message) ≡ 32 };

    ghost roomy: { (mac : Self) → 128 ≤ limit mac };
}
