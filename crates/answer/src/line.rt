//! The output line that reports an answer, in a buffer of fixed size.
ghost use Rattle.std.specs.Prelude.{◌≤◌};
ghost use Rattle.held.specs.Padded.{Padded};

/// The bytes of an output line, its line feed included. It has no model, since a struct that held one would no longer be copied
/// where it is passed by value. Bytes behind those of the line are zero, so that nothing else is kept with it.
#[derive(Clone, Copy)]
pub struct OutputLine {
    bytes: [u8; 80],
    len: usize,
    ghost fits: { len ≤ 80 },
    ghost padded: { Padded 80 bytes len },
}

mod calls;
