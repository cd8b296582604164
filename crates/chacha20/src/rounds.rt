//! The rounds: sixteen words, mixed four at a time.
ghost use Rattle.std.specs.Prelude.{◌≡◌};
ghost use Rattle.chacha20.specs.Rounds.{double_round, double_rounds, quarter, quarter_at};

use octets::quarters::{Four, Places, mix_at};

/// A quarter round.
fn quarter_round(four: Four) -> Four
    ensures { result ≡ quarter four }
{
    let a = four.a.wrapping_add(four.b);
    let d = (four.d ^ a).rotate_left(16);
    let c = four.c.wrapping_add(d);
    let b = (four.b ^ c).rotate_left(12);
    let a = a.wrapping_add(b);
    let d = (d ^ a).rotate_left(8);
    let c = c.wrapping_add(d);
    let b = (b ^ c).rotate_left(7);
    Four { a, b, c, d }
}

/// A quarter round on the words of the state at these places.
#[tactic(auto, unfolding(crate::specs::Rounds::quarter_at))]
fn quarter_round_at(s: &mut [u32; 16], at: Places)
    ensures { s.new ≡ quarter_at s.old at.a at.b at.c at.d }
{
    mix_at(s, at, quarter_round);
}

/// Two rounds: columns, then diagonals.
fn double_round(s: &mut [u32; 16])
    ensures { s.new ≡ double_round s.old }
{
    quarter_round_at(s, Places::new(0, 4, 8, 12));
    quarter_round_at(s, Places::new(1, 5, 9, 13));
    quarter_round_at(s, Places::new(2, 6, 10, 14));
    quarter_round_at(s, Places::new(3, 7, 11, 15));
    quarter_round_at(s, Places::new(0, 5, 10, 15));
    quarter_round_at(s, Places::new(1, 6, 11, 12));
    quarter_round_at(s, Places::new(2, 7, 8, 13));
    quarter_round_at(s, Places::new(3, 4, 9, 14));
}

/// Ten rounds.
#[tactic(auto, using(crate::proofs::Rounded::rounds_more), unfolding(crate::specs::Rounds::double_rounds))]
fn ten_rounds(s: &mut [u32; 16])
    ensures { s.new ≡ double_rounds 5 s.old }
{
    for _ in 0..5usize {
        double_round(s);
    }
}

/// All twenty rounds. Called twice, ten rounds stay a function of their own, and the compiler finds better places for the words
/// than where it joins the rounds with what follows.
#[tactic(auto, unfolding(crate::specs::Rounds::double_rounds))]
pub(crate) fn twenty_rounds(s: &mut [u32; 16])
    ensures { s.new ≡ double_rounds 10 s.old }
{
    ten_rounds(s);
    ten_rounds(s);
}
