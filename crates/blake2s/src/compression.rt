//! The compression function: one block into the hash's eight words.
ghost use Rattle.std.specs.Prelude.{◌≡◌, ◌-◌, ◌/◌, ◌%◌, ◌^◌, if◌then◌else◌};
ghost use Rattle.blake2s.specs.Compression.{compressed, working_state};

use crate::mixing::mix_rounds;
use crate::tables::START;
use octets::order::ByteOrder;
use octets::words::load;
use std::array;

/// The low 32 bits of the counter.
fn low(count: u64) -> u32
    ensures { result ≡ count % 2 ^ 32 }
{
    (count % 0x1_0000_0000) as u32
}

/// The high 32 bits of the counter.
fn high(count: u64) -> u32
    ensures { result ≡ count / 2 ^ 32 }
{
    (count >> 32) as u32
}

/// All bits at the last block, and none before.
fn flag(last: bool) -> u32
    ensures { result ≡ (if last then 2 ^ 32 - 1 else 0) }
{
    if last { u32::MAX } else { 0 }
}

/// The sixteen words that the rounds work on. `count` is how many bytes were taken so far, this block's among them.
fn working_state(h: [u32; 8], count: u64, last: bool) -> [u32; 16]
    ensures { result ≡ working_state h count last }
{
    let mut v = [0; 16];
    v[..8].copy_from_slice(&h);
    v[8..].copy_from_slice(&START);
    v[12] ^= low(count);
    v[13] ^= high(count);
    v[14] ^= flag(last);
    v
}

/// The hash's words after one block more. `count` is how many bytes were taken so far, this block's among them; `last` says
/// that no block follows.
pub(crate) fn compress(h: [u32; 8], block: &[u8; 64], count: u64, last: bool) -> [u32; 8]
    ensures { result ≡ compressed h block.now count last }
{
    let m = load(ByteOrder::LowFirst, block);
    let mut v = working_state(h, count, last);
    mix_rounds(&mut v, &m);
    array::from_fn(|i| h[i] ^ v[i] ^ v[i + 8])
}
