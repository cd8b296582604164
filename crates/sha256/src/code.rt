//! HMAC-SHA-256 as the box's message authentication code.
ghost use Rattle.hmac.specs.Hmac.{hmac_of};
ghost use Rattle.sha256.specs.Hashing.{sha256};
ghost use Rattle.sha256.specs.Lengths.{length-sha256};
ghost use Rattle.std.proofs.Common.{lit≤};

use crate::hash::Sha256;
use hmac::hmac;
use mac::Mac;
use refusal::Refusal;

/// HMAC over SHA-256, for messages of at most 1,024 bytes.
#[derive(Clone, Copy)]
pub struct HmacSha256;

impl Mac for HmacSha256 {
    ghost tagof = { λ _ key message. hmac_of sha256 key message };

    ghost limit = { λ _. 1024 };

    ghost sized = { λ mac key message. length-sha256 _ };

    ghost roomy = { λ _. lit≤ tt };

    fn tag(&self, key: &[u8; 32], message: &[u8]) -> Result<[u8; 32], Refusal> {
        if message.len() > 1024 {
            return Err(Refusal::MessageTooLong);
        }
        Ok(hmac::<Sha256>(key, message))
    }
}
