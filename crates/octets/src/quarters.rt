//! A state of sixteen words that is mixed four words at a time.
ghost use Rattle.std.specs.Prelude.{◌≡◌, ◌<◌};
ghost use Rattle.octets.specs.Quarters.{four_at, with_four};
ghost use Rattle.octets.specs.declared.quarters.Four.{Four};

/// Four words of the state.
#[derive(Clone, Copy)]
pub struct Four {
    pub a: u32,
    pub b: u32,
    pub c: u32,
    pub d: u32,
}

/// The places of four words in the state.
#[derive(Clone, Copy)]
pub struct Places {
    pub a: usize,
    pub b: usize,
    pub c: usize,
    pub d: usize,
    ghost a_in: { a < 16 },
    ghost b_in: { b < 16 },
    ghost c_in: { c < 16 },
    ghost d_in: { d < 16 },
}

impl Places {
    /// These four places.
    pub fn new(a: usize, b: usize, c: usize, d: usize) -> Self
        requires a_in { a < 16 }
        requires b_in { b < 16 }
        requires c_in { c < 16 }
        requires d_in { d < 16 }
        ensures a_is { result.a ≡ a }
        ensures b_is { result.b ≡ b }
        ensures c_is { result.c ≡ c }
        ensures d_is { result.d ≡ d }
    {
        Places { a, b, c, d }
    }
}

/// Mixes the four words at these places. It works in place, since a copy of the state at each step would take more time than
/// the step.
pub fn mix_at<F: FnOnce(Four) -> Four>(state: &mut [u32; 16], at: Places, mix: F)
    requires { F.pre mix (four_at state.old at.a at.b at.c at.d) }
    ensures { (mixed : Four) × F.post mix (four_at state.old at.a at.b at.c at.d) mixed × (state.new ≡ with_four state.old at.a at.b at.c at.d mixed) }
{
    let four = Four {
        a: state[at.a],
        b: state[at.b],
        c: state[at.c],
        d: state[at.d],
    };
    let mixed = mix(four);
    state[at.a] = mixed.a;
    state[at.b] = mixed.b;
    state[at.c] = mixed.c;
    state[at.d] = mixed.d;
}
