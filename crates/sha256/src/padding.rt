//! The end of a message: the bit that follows it, and its length.
ghost use Rattle.std.specs.Prelude.{◌≡◌, ◌<◌, [], ◌∷◌, ◌++◌, length, take};
ghost use Rattle.octets.specs.Laying.{filled};
ghost use Rattle.sha256.specs.Hashing.{length_bytes};

use octets::block::block_at;

/// What a message has behind its whole blocks, and the bit that follows the message, filled up with zeros to a block.
pub(crate) fn mark_end(rest: &[u8]) -> [u8; 64]
    requires { length rest.now < 64 }
    ensures { result ≡ filled 64 (rest.now ++ 0x80 ∷ []) }
{
    let mut block = block_at(rest, 0);
    block[rest.len()] = 0x80;
    block
}

/// The length in bits of a message of `count` bytes.
fn length_bytes(count: u64) -> [u8; 8]
    ensures { result ≡ length_bytes count }
{
    count.wrapping_mul(8).to_be_bytes()
}

/// The block with the length of a message of `count` bytes at its end.
pub(crate) fn with_length(mut block: [u8; 64], count: u64) -> [u8; 64]
    ensures { result ≡ take 56 block ++ length_bytes count }
{
    block[56..].copy_from_slice(&length_bytes(count));
    block
}
