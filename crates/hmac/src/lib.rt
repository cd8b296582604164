//! HMAC (RFC 2104), over any hash that takes its message in blocks of 64 bytes and gives 32.
#![tactic(auto)]

ghost use Rattle.std.specs.Prelude.{◌≡◌, ℕ, List, ◌++◌};
ghost use Rattle.hmac.specs.Hmac.{hmac_of, key_pad};

use octets::block::block_at;
use std::array;

/// A hash that takes its message in blocks of 64 bytes and gives 32.
pub trait BlockHash {
    /// the hash of a message
    ghost digestof: { List ℕ → List ℕ };

    /// The hash of a block and the message behind it.
    fn digest_after(block: &[u8; 64], message: &[u8]) -> [u8; 32]
        ensures { result ≡ digestof (block.now ++ message.now) };
}

/// The key, filled up to a block with zeros, exclusive-or a byte at every place.
fn key_pad(key: &[u8; 32], pad: u8) -> [u8; 64]
    ensures { result ≡ key_pad key.now pad }
{
    let block = block_at(key, 0);
    array::from_fn(|i| block[i] ^ pad)
}

/// The HMAC of a message under a key.
pub fn hmac<H: BlockHash>(key: &[u8; 32], message: &[u8]) -> [u8; 32]
    ensures { result ≡ hmac_of H.BlockHash.digestof key.now message.now }
{
    let inner = H::digest_after(&key_pad(key, 0x36), message);
    H::digest_after(&key_pad(key, 0x5c), &inner)
}
