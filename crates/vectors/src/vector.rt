//! One vector: which function, on which arguments.
ghost use Rattle.std.specs.Prelude.{◌≡◌};
ghost use Rattle.std.specs.Option.{ok_or};
ghost use Rattle.notation.specs.Hex.{bytes_in};

use crate::message;
use crate::outcome::{Failure, Outcome};
use blake2s::code::KeyedBlake2s;
use chacha20::block::block;
use cipher::Cipher;
use cipher::chacha::ChaChaCipher;
use cipher::from_mac::MacCipher;
use mac::Mac;
use notation::fields::Fields;
use notation::{decimal, hex};
use sha256::code::HmacSha256;
use std::alloc::Global;

/// The bytes that a field spells in hexadecimal.
fn bytes<const N: usize>(field: &[u8]) -> Result<[u8; N], Failure>
    ensures { result ≡ ok_or (bytes_in N field.now) Failure.Unreadable }
{
    hex::decode_array(field).ok_or(Failure::Unreadable)
}

/// NAME PATTERN LENGTH: the hash of the message.
fn digest_line<D: Fn(&[u8]) -> [u8; 32] + Drop>(
    heap: Global,
    fields: &Fields<'_>,
    digest: D,
) -> Result<Outcome, Failure>
    requires { D.IsAlwaysCallable digest }
{
    let message = message::read(heap, fields.nth(1), fields.nth(2))?;
    Ok(Outcome::Tag(digest(&message)))
}

/// NAME KEY PATTERN LENGTH: the tag of the message.
fn tag_line(heap: Global, fields: &Fields<'_>, mac: &impl Mac) -> Result<Outcome, Failure> {
    let key = bytes(fields.nth(1))?;
    let message = message::read(heap, fields.nth(2), fields.nth(3))?;
    Ok(Outcome::Tag(mac.tag(&key, &message)?))
}

/// NAME KEY COUNTER NONCE: a block of key stream.
fn block_line(fields: &Fields<'_>) -> Result<Outcome, Failure> {
    let key = bytes(fields.nth(1))?;
    let counter = decimal::read_as(fields.nth(2)).ok_or(Failure::Unreadable)?;
    let nonce = bytes(fields.nth(3))?;
    Ok(Outcome::Block(block(&key, counter, &nonce)))
}

/// NAME KEY PLAIN: 32 bytes encrypted, and decrypted again.
fn cipher_line(fields: &Fields<'_>, cipher: &impl Cipher) -> Result<Outcome, Failure> {
    let key = bytes(fields.nth(1))?;
    let plain = bytes(fields.nth(2))?;
    let hidden = cipher.encrypt(&key, &plain);
    let revealed = cipher.decrypt(&key, &hidden);
    Ok(Outcome::Ciphered { hidden, revealed })
}

/// Runs the vector of a line.
pub(crate) fn run(heap: Global, line: &[u8]) -> Result<Outcome, Failure> {
    let fields = Fields::new(line, b'\t');
    match fields.nth(0) {
        b"sha256" => digest_line(heap, &fields, sha256::hash::digest),
        b"blake2s" => digest_line(heap, &fields, blake2s::hash::digest),
        b"hmac-sha256" => tag_line(heap, &fields, &HmacSha256),
        b"keyed-blake2s" => tag_line(heap, &fields, &KeyedBlake2s),
        b"chacha20-block" => block_line(&fields),
        b"chacha20-cipher" => cipher_line(&fields, &ChaChaCipher),
        b"hmac-sha256-cipher" => cipher_line(&fields, &MacCipher { mac: HmacSha256 }),
        b"keyed-blake2s-cipher" => cipher_line(&fields, &MacCipher { mac: KeyedBlake2s }),
        _ => Err(Failure::Unreadable),
    }
}
