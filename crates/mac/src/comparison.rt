//! Comparing tags.
ghost use Rattle.std.specs.Prelude.{◌≡◌, Decides};
ghost use Rattle.mac.specs.Differing.{Tells};

/// The bits in which two tags differ, at any of their places. Every byte of both is looked at, wherever they differ, and no
/// branch depends on one.
fn difference(a: &[u8; 32], b: &[u8; 32]) -> u8
    ensures { Tells result a.now b.now }
{
    a.iter().zip(b).fold(0, |bits, (x, y)| bits | (x ^ y))
}

/// Whether two tags are the same, in a time that does not depend on where they differ.
pub fn same_tag(a: &[u8; 32], b: &[u8; 32]) -> bool
    ensures { Decides result (a.now ≡ b.now) }
{
    difference(a, b) == 0
}
