//! The block function: 64 bytes of key stream.
ghost use Rattle.std.specs.Prelude.{◌≡◌};
ghost use Rattle.chacha20.specs.Block.{chacha20, mixed_words, start_words};

use crate::rounds::twenty_rounds;
use octets::order::ByteOrder;
use octets::words::{load_words, store_words};
use std::array;

/// The first four words of each state: the text "expand 32-byte k".
const CONSTANTS: [u32; 4] = [0x61707865, 0x3320646e, 0x79622d32, 0x6b206574];

/// The state that the rounds start from: constants, key, counter, nonce.
fn start(key: &[u8; 32], counter: u32, nonce: &[u8; 12]) -> [u32; 16]
    ensures { result ≡ start_words key.now counter nonce.now }
{
    let mut state = [0; 16];
    state[..4].copy_from_slice(&CONSTANTS);
    state[4..12].copy_from_slice(&load_words::<8>(ByteOrder::LowFirst, key));
    state[12] = counter;
    state[13..].copy_from_slice(&load_words::<3>(ByteOrder::LowFirst, nonce));
    state
}

/// The key stream's words: what the rounds make of the start, and the start added to it.
fn mixed_words(start: [u32; 16]) -> [u32; 16]
    ensures { result ≡ mixed_words start }
{
    let mut s = start;
    twenty_rounds(&mut s);
    array::from_fn(|i| s[i].wrapping_add(start[i]))
}

/// The block of key stream for this key, block counter and nonce.
pub fn block(key: &[u8; 32], counter: u32, nonce: &[u8; 12]) -> [u8; 64]
    ensures { result ≡ chacha20 key.now counter nonce.now }
{
    store_words(
        ByteOrder::LowFirst,
        &mixed_words(start(key, counter, nonce)),
    )
}
