//! The static library: the box's codes and its cipher under symbols for C and Rust. Where a call can be refused, its answer is 0
//! or the number of the refusal, and a refusal leaves `out` as it was.
#![tactic(auto)]

ghost use Rattle.std.specs.Prelude.{◌≡◌};
ghost use Rattle.blake2s.specs.Hashing.{blake2s};
ghost use Rattle.cipher.specs.Streams.{chacha_stream};
ghost use Rattle.exports.specs.Answers.{answer_of, result_of};
ghost use Rattle.hmac.specs.Hmac.{hmac_of};
ghost use Rattle.mac.specs.Tagging.{tagged};
ghost use Rattle.octets.specs.Masks.{masked};
ghost use Rattle.sha256.specs.Hashing.{sha256};

use blake2s::code::KeyedBlake2s;
use cipher::chacha::ChaChaCipher;
use exports::{put_encrypted, put_tag};
use sha256::code::HmacSha256;

/// The HMAC-SHA-256 tag of a message.
#[unsafe(no_mangle)]
pub extern "C" fn release_box_hmac_sha256(key: &[u8; 32], message: &[u8], out: &mut [u8; 32]) -> u8
    ensures answer { result ≡ answer_of (tagged 1024 (hmac_of sha256) key.now message.now) }
    ensures result { out.new ≡ result_of (tagged 1024 (hmac_of sha256) key.now message.now) out.old }
{
    put_tag(&HmacSha256, key, message, out)
}

/// The keyed BLAKE2s tag of a message.
#[unsafe(no_mangle)]
pub extern "C" fn release_box_keyed_blake2s(
    key: &[u8; 32],
    message: &[u8],
    out: &mut [u8; 32],
) -> u8
    ensures answer { result ≡ answer_of (tagged 1024 blake2s key.now message.now) }
    ensures result { out.new ≡ result_of (tagged 1024 blake2s key.now message.now) out.old }
{
    put_tag(&KeyedBlake2s, key, message, out)
}

/// 32 bytes encrypted by the ChaCha20 cipher, which never refuses.
#[unsafe(no_mangle)]
pub extern "C" fn release_box_chacha20_encrypt(key: &[u8; 32], plain: &[u8; 32], out: &mut [u8; 32])
    ensures { out.new ≡ masked plain.now (chacha_stream key.now) }
{
    put_encrypted(&ChaChaCipher, key, plain, out)
}
