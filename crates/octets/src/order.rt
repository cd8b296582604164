//! The order of the four bytes of a word.
ghost use Rattle.std.specs.Prelude.{◌≡◌, slice_index};
ghost use Rattle.octets.specs.Order.{bytes_of, word_of};

/// Which byte of a word comes first.
#[derive(Clone, Copy)]
pub enum ByteOrder {
    HighFirst,
    LowFirst,
}

impl ByteOrder {
    /// The word of these four bytes.
    pub fn word(self, bytes: [u8; 4]) -> u32
        ensures { result ≡ word_of self (slice_index bytes 0) (slice_index bytes 1) (slice_index bytes 2) (slice_index bytes 3) }
    {
        match self {
            ByteOrder::HighFirst => u32::from_be_bytes(bytes),
            ByteOrder::LowFirst => u32::from_le_bytes(bytes),
        }
    }

    /// The four bytes of this word.
    pub fn bytes(self, word: u32) -> [u8; 4]
        ensures { result ≡ bytes_of self word }
    {
        match self {
            ByteOrder::HighFirst => word.to_be_bytes(),
            ByteOrder::LowFirst => word.to_le_bytes(),
        }
    }
}
