//! Keyed BLAKE2s as the box's message authentication code.
ghost use Rattle.blake2s.specs.Hashing.{blake2s};
ghost use Rattle.std.proofs.Math.Path.{refl};
ghost use Rattle.blake2s.specs.Compression.{compressed};
ghost use Rattle.std.proofs.Common.{lit≤};

use crate::hash::keyed_digest;
use mac::Mac;
use refusal::Refusal;

/// BLAKE2s under a key of 32 bytes, for messages of at most 1,024 bytes.
#[derive(Clone, Copy)]
pub struct KeyedBlake2s;

impl Mac for KeyedBlake2s {
    ghost tagof = { λ _ key message. blake2s key message };

    ghost limit = { λ _. 1024 };

    ghost sized = { unfold compressed in λ mac key message. refl };

    ghost roomy = { λ _. lit≤ tt };

    fn tag(&self, key: &[u8; 32], message: &[u8]) -> Result<[u8; 32], Refusal> {
        if message.len() > 1024 {
            return Err(Refusal::MessageTooLong);
        }
        Ok(keyed_digest(key, message))
    }
}
