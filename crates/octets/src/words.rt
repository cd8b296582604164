//! Bytes as 32-bit words and back.
ghost use Rattle.std.specs.Prelude.{◌≡◌, ◌+◌, ◌*◌, ◌<◌, ◌≤◌, length};
ghost use Rattle.octets.specs.Words.{bytes_of_words, word_at, words_of};

use crate::laying::lay;
use crate::order::ByteOrder;
use std::array;

/// The word whose bytes begin at the place `at`.
fn word_at(order: ByteOrder, bytes: &[u8], at: usize) -> u32
    requires { at + 3 < length bytes.now }
    ensures { result ≡ word_at order bytes.now at }
{
    order.word([bytes[at], bytes[at + 1], bytes[at + 2], bytes[at + 3]])
}

/// The sixteen words of a block.
pub fn load(order: ByteOrder, block: &[u8; 64]) -> [u32; 16]
    ensures { result ≡ words_of order 16 block.now }
{
    load_words(order, block)
}

/// The first words of these bytes, as many as are asked for.
pub fn load_words<const N: usize>(order: ByteOrder, bytes: &[u8]) -> [u32; N]
    requires { 4 * N ≤ length bytes.now }
    ensures { result ≡ words_of order N bytes.now }
{
    array::from_fn(|i| word_at(order, bytes, 4 * i))
}

/// The bytes of eight words, one word after the other.
pub fn store(order: ByteOrder, words: &[u32; 8]) -> [u8; 32]
    ensures { result ≡ bytes_of_words order words.now }
{
    store_words(order, words)
}

/// The bytes of these words, one word after the other.
pub fn store_words<const N: usize>(order: ByteOrder, words: &[u32]) -> [u8; N]
    requires { N ≡ 4 * length words.now }
    ensures { result ≡ bytes_of_words order words.now }
{
    let mut bytes = [0; N];
    for (i, word) in words.iter().enumerate() {
        lay(&mut bytes, 4 * i, &order.bytes(*word));
    }
    bytes
}
