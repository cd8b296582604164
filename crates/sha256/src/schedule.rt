//! The message schedule: 64 words from the sixteen of a block.
ghost use Rattle.std.specs.Prelude.{◌≡◌, ◌<◌};
ghost use Rattle.sha256.specs.Compression.{next_word, scheduled};
ghost use Rattle.sha256.specs.Functions.{small_sigma};

/// The exclusive or of the word turned right by `A` and by `B` bits and shifted right by `C`.
fn small_sigma<const A: u32, const B: u32, const C: u32>(x: u32) -> u32
    requires { C < 32 }
    ensures { result ≡ small_sigma A B C x }
{
    x.rotate_right(A) ^ x.rotate_right(B) ^ (x >> C)
}

/// Word number `i` + 16 of the schedule, from the words before it.
fn next_word(words: &[u32; 64], i: usize) -> u32
    requires { i < 48 }
    ensures { result ≡ next_word words.now i }
{
    small_sigma::<17, 19, 10>(words[i + 14])
        .wrapping_add(words[i + 9])
        .wrapping_add(small_sigma::<7, 18, 3>(words[i + 1]))
        .wrapping_add(words[i])
}

/// The whole schedule.
pub(crate) fn schedule(block: &[u32; 16]) -> [u32; 64]
    ensures { result ≡ scheduled 48 block.now }
{
    let mut words = [0; 64];
    words[..16].copy_from_slice(block);
    for i in 0..48 {
        words[i + 16] = next_word(&words, i);
    }
    words
}
