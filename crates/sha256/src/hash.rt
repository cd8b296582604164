//! The hash of a whole message.
ghost use Rattle.std.specs.Prelude.{◌≡◌, ◌+◌, ◌%◌, ◌++◌, length, fold};
ghost use Rattle.sha256.specs.Compression.{compressed};
ghost use Rattle.sha256.specs.Hashing.{absorbed_all, padding, sha256};

use crate::compression::compress;
use crate::padding::{mark_end, with_length};
use crate::tables::START;
use hmac::BlockHash;
use octets::order::ByteOrder;
use octets::words::store;

/// The words after these blocks.
fn absorb(h: [u32; 8], blocks: &[[u8; 64]]) -> [u32; 8]
    ensures { result ≡ fold compressed h blocks.now }
{
    blocks.iter().fold(h, compress)
}

/// The words after the end of a message of `count` bytes: what it has behind its whole blocks, and the padding.
fn absorb_end(h: [u32; 8], rest: &[u8], count: u64) -> [u32; 8]
    requires { count % 64 ≡ length rest.now }
    ensures { result ≡ absorbed_all (rest.now ++ padding count) h }
{
    let last = mark_end(rest);
    if rest.len() < 56 {
        return compress(h, &with_length(last, count));
    }
    compress(compress(h, &last), &with_length([0; 64], count))
}

/// The words after the message and its padding. `before` bytes, all in whole blocks, were taken already.
fn finish(h: [u32; 8], before: u64, message: &[u8]) -> [u32; 8]
    requires { before % 64 ≡ 0 }
    ensures { result ≡ absorbed_all (message.now ++ padding (before + length message.now)) h }
{
    let count = before.wrapping_add(message.len() as u64);
    let (blocks, rest) = message.as_chunks::<64>();
    absorb_end(absorb(h, blocks), rest, count)
}

/// The hash of a message.
pub fn digest(message: &[u8]) -> [u8; 32]
    ensures { result ≡ sha256 message.now }
{
    store(ByteOrder::HighFirst, &finish(START, 0, message))
}

/// SHA-256, as a hash that HMAC can stand on.
pub struct Sha256;

impl BlockHash for Sha256 {
    ghost digestof = { sha256 };

    fn digest_after(block: &[u8; 64], message: &[u8]) -> [u8; 32] {
        let words = finish(compress(START, block), 64, message);
        store(ByteOrder::HighFirst, &words)
    }
}
