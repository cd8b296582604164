//! The hash of a whole message, without a key or with one.
ghost use Rattle.std.specs.Prelude.{◌≡◌, ◌*◌, ◌≤◌, [], ◌++◌, length};
ghost use Rattle.blake2s.specs.Hashing.{absorbed, blake2s, hashed_from, started};

use crate::compression::compress;
use crate::tables::START;
use octets::block::block_at;
use octets::order::ByteOrder;
use octets::words::store;

/// The first words of a hash with a key of this length and a result of 32 bytes.
fn start(key_length: u32) -> [u32; 8]
    requires { key_length ≤ 32 }
    ensures { result ≡ started key_length }
{
    let mut words = START;
    words[0] = words[0] ^ 0x0101_0000 ^ (key_length * 256) ^ 32;
    words
}

/// The words after the first `blocks` blocks of the message, none of them the last. `before` bytes were taken already.
fn absorb(h: [u32; 8], before: u64, message: &[u8], blocks: usize) -> [u32; 8]
    requires { 64 * blocks ≤ length message.now }
    ensures { result ≡ absorbed blocks before message.now h }
{
    let (whole, _) = message.as_chunks::<64>();
    let mut words = h;
    let mut count = before;
    for block in &whole[..blocks] {
        count = count.wrapping_add(64);
        let next = compress(words, block, count, false);
        words = next;
    }
    words
}

/// The words after the whole message and the end of the hash. `before` bytes were taken already.
fn finish(h: [u32; 8], before: u64, message: &[u8]) -> [u32; 8]
    ensures { result ≡ hashed_from before h message.now }
{
    let leading = message.len().saturating_sub(1) / 64;
    let words = absorb(h, before, message, leading);
    let count = before.wrapping_add(message.len() as u64);
    compress(words, &block_at(message, 64 * leading), count, true)
}

/// The words after a block, the message behind it and the end of the hash.
#[tactic(auto, using(crate::proofs::Blocks::hashed_after, crate::proofs::Blocks::hashed_alone))]
fn finish_after(h: [u32; 8], block: &[u8; 64], message: &[u8]) -> [u32; 8]
    ensures { result ≡ hashed_from 0 h (block.now ++ message.now) }
{
    if message.is_empty() {
        return compress(h, block, 64, true);
    }
    finish(compress(h, block, 64, false), 64, message)
}

/// The hash of a message, without a key.
pub fn digest(message: &[u8]) -> [u8; 32]
    ensures { result ≡ blake2s [] message.now }
{
    store(ByteOrder::LowFirst, &finish(start(0), 0, message))
}

/// The hash of a message under a key.
pub fn keyed_digest(key: &[u8; 32], message: &[u8]) -> [u8; 32]
    ensures { result ≡ blake2s key.now message.now }
{
    let words = finish_after(start(32), &block_at(key, 0), message);
    store(ByteOrder::LowFirst, &words)
}
