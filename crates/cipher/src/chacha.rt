//! The cipher from ChaCha20.
ghost use Rattle.cipher.specs.Streams.{chacha_stream};
ghost use Rattle.cipher.specs.Masked.{chacha_sized};

use crate::key_stream::KeyStream;
use chacha20::block::block;

/// Exclusive or with the first 32 bytes of the ChaCha20 block with counter 0 and a nonce of zeros. A key serves for one text.
#[derive(Clone, Copy)]
pub struct ChaChaCipher;

impl KeyStream for ChaChaCipher {
    ghost stream = { λ _ key. chacha_stream key };

    ghost full = { λ _ key. chacha_sized key };

    fn stream(&self, key: &[u8; 32]) -> [u8; 32] {
        *block(key, 0, &[0; 12]).first_chunk().unwrap()
    }
}
