//! One block into the hash's words.
ghost use Rattle.std.specs.Prelude.{◌≡◌};
ghost use Rattle.sha256.specs.Compression.{compressed, round, rounds};
ghost use Rattle.sha256.specs.Functions.{big_sigma, ch, maj};
ghost use Rattle.sha256.specs.Tables.{round_constants};

use crate::schedule::schedule;
use crate::tables::ROUND_CONSTANTS;
use octets::order::ByteOrder;
use octets::words::load;
use std::array;

/// Each bit of `y` where that of `x` is set, and of `z` where it is not.
fn choose(x: u32, y: u32, z: u32) -> u32
    ensures { result ≡ ch x y z }
{
    (x & y) ^ (!x & z)
}

/// Each bit as most of the three have it.
fn majority(x: u32, y: u32, z: u32) -> u32
    ensures { result ≡ maj x y z }
{
    (x & y) ^ (x & z) ^ (y & z)
}

/// The exclusive or of the word turned right by `A`, by `B` and by `C` bits.
fn big_sigma<const A: u32, const B: u32, const C: u32>(x: u32) -> u32
    ensures { result ≡ big_sigma A B C x }
{
    x.rotate_right(A) ^ x.rotate_right(B) ^ x.rotate_right(C)
}

/// One round, with its constant and its word of the schedule.
#[tactic(auto, unfolding(crate::specs::Compression::round))]
fn one_round(s: [u32; 8], constant_and_word: (&u32, &u32)) -> [u32; 8]
    ensures { result ≡ round s constant_and_word.entry.0.now constant_and_word.entry.1.now }
{
    let (k, w) = constant_and_word;
    let [a, b, c, d, e, f, g, h] = s;
    let t1 = h
        .wrapping_add(big_sigma::<6, 11, 25>(e))
        .wrapping_add(choose(e, f, g))
        .wrapping_add(*k)
        .wrapping_add(*w);
    let t2 = big_sigma::<2, 13, 22>(a).wrapping_add(majority(a, b, c));
    [t1.wrapping_add(t2), a, b, c, d.wrapping_add(t1), e, f, g]
}

/// Eight rounds, with their constants and their words. A loop of so few is written out by the compiler, and after eight each
/// of the words a to h stands where it stood, so that none is moved in between.
fn eight_rounds(s: [u32; 8], constants_and_words: (&[u32; 8], &[u32; 8])) -> [u32; 8]
    ensures { result ≡ rounds constants_and_words.entry.0.now constants_and_words.entry.1.now s }
{
    let (constants, words) = constants_and_words;
    constants.iter().zip(words).fold(s, one_round)
}

/// All 64 rounds.
fn all_rounds(h: [u32; 8], words: &[u32; 64]) -> [u32; 8]
    ensures { result ≡ rounds round_constants words.now h }
{
    let (constants, _) = ROUND_CONSTANTS.as_chunks::<8>();
    let (words, _) = words.as_chunks::<8>();
    constants.iter().zip(words).fold(h, eight_rounds)
}

/// The hash's words after one block more.
pub(crate) fn compress(h: [u32; 8], block: &[u8; 64]) -> [u32; 8]
    ensures { result ≡ compressed h block.now }
{
    let s = all_rounds(h, &schedule(&load(ByteOrder::HighFirst, block)));
    array::from_fn(|i| h[i].wrapping_add(s[i]))
}
