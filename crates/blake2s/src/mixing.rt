//! The rounds: the words of a block are mixed into the working state, four words of it at a time.
ghost use Rattle.std.specs.Prelude.{◌≡◌, ℕ, ◌<◌, slice_index};
ghost use Rattle.blake2s.specs.Compression.{mixed_columns, mixed_diagonals, mixed_rounds, words_in};
ghost use Rattle.blake2s.specs.Mixing.{mixed_at, mixed_four};

use crate::tables::ORDERS;
use octets::quarters::{self, Four, Places};
use std::array;

/// Mixes two words of the block, `x` and `y`, into four words of the state.
fn mix_four(four: Four, x: u32, y: u32) -> Four
    ensures { result ≡ mixed_four four x y }
{
    let a = four.a.wrapping_add(four.b).wrapping_add(x);
    let d = (four.d ^ a).rotate_right(16);
    let c = four.c.wrapping_add(d);
    let b = (four.b ^ c).rotate_right(12);
    let a = a.wrapping_add(b).wrapping_add(y);
    let d = (d ^ a).rotate_right(8);
    let c = c.wrapping_add(d);
    let b = (b ^ c).rotate_right(7);
    Four { a, b, c, d }
}

/// Mixes `x` and `y` into the words of the state at these places.
#[tactic(auto, unfolding(crate::specs::Mixing::mixed_at))]
fn mix_at(v: &mut [u32; 16], at: Places, x: u32, y: u32)
    ensures { v.new ≡ mixed_at v.old at.a at.b at.c at.d x y }
{
    quarters::mix_at(v, at, |four| mix_four(four, x, y));
}

/// The words `m` of a block, as a round takes them: in this order of their places.
fn in_order(m: &[u32; 16], order: &[u8; 16]) -> [u32; 16]
    requires { (i : ℕ) → slice_index order.now i < 16 }
    ensures { result ≡ words_in m.now order.now }
{
    array::from_fn(|i| m[order[i] as usize])
}

/// The first half of a round, over the words in its order: the columns.
fn mix_columns(v: &mut [u32; 16], words: &[u32; 16])
    ensures { v.new ≡ mixed_columns v.old words.now }
{
    mix_at(v, Places::new(0, 4, 8, 12), words[0], words[1]);
    mix_at(v, Places::new(1, 5, 9, 13), words[2], words[3]);
    mix_at(v, Places::new(2, 6, 10, 14), words[4], words[5]);
    mix_at(v, Places::new(3, 7, 11, 15), words[6], words[7]);
}

/// The second half of a round: the diagonals.
fn mix_diagonals(v: &mut [u32; 16], words: &[u32; 16])
    ensures { v.new ≡ mixed_diagonals v.old words.now }
{
    mix_at(v, Places::new(0, 5, 10, 15), words[8], words[9]);
    mix_at(v, Places::new(1, 6, 11, 12), words[10], words[11]);
    mix_at(v, Places::new(2, 7, 8, 13), words[12], words[13]);
    mix_at(v, Places::new(3, 4, 9, 14), words[14], words[15]);
}

/// All ten rounds over the words `m` of a block.
pub(crate) fn mix_rounds(v: &mut [u32; 16], m: &[u32; 16])
    ensures { v.new ≡ mixed_rounds 10 m.now v.old }
{
    for order in &ORDERS {
        let words = in_order(m, order);
        mix_columns(v, &words);
        mix_diagonals(v, &words);
    }
}
