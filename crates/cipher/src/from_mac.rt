//! The cipher from any message authentication code.
ghost use Rattle.std.specs.Prelude.{[], ◌∷◌};
ghost use Rattle.cipher.specs.Streams.{tag_stream};

use crate::key_stream::KeyStream;
use mac::Mac;

/// Exclusive or with the tag of the one-byte message 07. A key serves for one text.
pub struct MacCipher<M: Mac> {
    pub mac: M,
}

impl<M: Mac> KeyStream for MacCipher<M> {
    ghost stream = { λ c key. tag_stream (M.Mac.tagof c.mac) key };

    ghost full = { λ c key. M.Mac.sized c.mac key (7 ∷ []) };

    fn stream(&self, key: &[u8; 32]) -> [u8; 32] {
        // A message of one byte is within the limit of every code.
        self.mac.tag(key, &[7]).unwrap()
    }
}
