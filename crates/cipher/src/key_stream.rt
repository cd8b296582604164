//! The cipher from any key stream.
ghost use Rattle.std.specs.Prelude.{◌≡◌, ℕ, List, length};
ghost use Rattle.octets.specs.Masks.{masked};
ghost use Rattle.cipher.specs.Masked.{mask_back, mask_sized};

use crate::Cipher;
use octets::mask::xor;

/// 32 bytes made from a key of 32 bytes, for a text to be masked with.
pub trait KeyStream {
    /// the bytes of a key: one fixed function of the stream and the key
    ghost stream: { Self → List ℕ → List ℕ };

    /// The bytes of a key. A key serves for one text.
    fn stream(&self, key: &[u8; 32]) -> [u8; 32]
        ensures { result ≡ stream self.now key.now };

    ghost full: { (from : Self) (key : List ℕ) → length (stream from key) ≡ 32 };
}

/// Exclusive or with the key stream, which is its own inverse.
impl<S: KeyStream> Cipher for S {
    ghost encrypted = { λ from key plain. masked plain (S.KeyStream.stream from key) };

    ghost decrypted = { λ from key hidden. masked hidden (S.KeyStream.stream from key) };

    ghost back = { λ from key plain k p. mask_back plain (S.KeyStream.stream from key) p (S.KeyStream.full from key) };

    ghost sized = { λ from key plain k p. mask_sized plain (S.KeyStream.stream from key) p (S.KeyStream.full from key) };

    fn encrypt(&self, key: &[u8; 32], plain: &[u8; 32]) -> [u8; 32] {
        xor(plain, &self.stream(key))
    }

    fn decrypt(&self, key: &[u8; 32], hidden: &[u8; 32]) -> [u8; 32] {
        self.encrypt(key, hidden)
    }
}
