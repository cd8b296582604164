//! The path of a sheet file: 1 to 40 bytes of any kind.
ghost use Rattle.std.specs.Prelude.{◌≤◌};
ghost use Rattle.held.specs.Padded.{Padded};

/// The path of a sheet file, held by value so that a row can keep it. It has no model, since a row that held one would no longer
/// be copied where it is passed by value. Bytes behind those of the path are zero, so that nothing else is kept with it.
#[derive(Clone, Copy)]
pub struct SheetPath {
    bytes: [u8; 40],
    len: usize,
    ghost fits: { len ≤ 40 },
    ghost padded: { Padded 40 bytes len },
}

mod bytes;
