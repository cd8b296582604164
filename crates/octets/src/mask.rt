//! Exclusive or of bytes.
ghost use Rattle.std.specs.Prelude.{◌≡◌};
ghost use Rattle.octets.specs.Masks.{masked};

use std::array;

/// The exclusive or of 32 bytes with 32 others.
pub fn xor(bytes: &[u8; 32], mask: &[u8; 32]) -> [u8; 32]
    ensures { result ≡ masked bytes.now mask.now }
{
    array::from_fn(|i| bytes[i] ^ mask[i])
}
