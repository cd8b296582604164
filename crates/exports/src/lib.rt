//! What the functions for other languages are made of: a tag and an encrypted text, on numbers and bytes, of any code and of any
//! cipher. The static library `exports_c` has them for the box's own under their symbols.
#![tactic(auto)]

ghost use Rattle.std.specs.Prelude.{◌≡◌};
ghost use Rattle.exports.specs.Answers.{answer_of, result_of};
ghost use Rattle.mac.specs.Tagging.{tagged};

use cipher::Cipher;
use mac::Mac;

/// Writes the tag of a message to `out`. Other languages know neither a `Result` nor an array that is returned: the answer is
/// 0 or the number of the refusal, and a refusal leaves `out` as it was.
pub fn put_tag<M: Mac>(mac: &M, key: &[u8; 32], message: &[u8], out: &mut [u8; 32]) -> u8
    ensures answer { result ≡ answer_of (tagged (M.Mac.limit mac.now) (M.Mac.tagof mac.now) key.now message.now) }
    ensures result { out.new ≡ result_of (tagged (M.Mac.limit mac.now) (M.Mac.tagof mac.now) key.now message.now) out.old }
{
    match mac.tag(key, message) {
        Ok(tag) => {
            *out = tag;
            0
        }
        Err(refusal) => refusal.number(),
    }
}

/// Writes to `out` what 32 bytes are encrypted to, which is never refused.
pub fn put_encrypted<C: Cipher>(cipher: &C, key: &[u8; 32], plain: &[u8; 32], out: &mut [u8; 32])
    ensures { out.new ≡ C.Cipher.encrypted cipher.now key.now plain.now }
{
    *out = cipher.encrypt(key, plain);
}
