//! Laying bytes over others.
ghost use Rattle.std.specs.Prelude.{◌≡◌};
ghost use Rattle.octets.specs.Laying.{laid};

/// Lays `src` over `dst` from the place `at` on, as far as `dst` reaches.
pub fn lay(dst: &mut [u8], at: usize, src: &[u8])
    ensures { dst.new ≡ laid dst.old at src.now }
{
    let start = at.min(dst.len());
    let n = src.len().min(dst.len() - start);
    dst[start..start + n].copy_from_slice(&src[..n]);
}
