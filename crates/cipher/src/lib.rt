//! Ciphers of 32 bytes under a key of 32 bytes: what the box asks of one, one from any key stream, and the key streams of
//! ChaCha20 and of any message authentication code.
#![tactic(auto)]

ghost use Rattle.std.specs.Prelude.{◌≡◌, ℕ, List, length};

pub mod chacha;
pub mod from_mac;
pub mod key_stream;

/// A cipher: it encrypts 32 bytes under a key of 32 bytes, and decrypts them again.
pub trait Cipher {
    /// what 32 bytes are encrypted to under a key: one fixed function of the two
    ghost encrypted: { Self → List ℕ → List ℕ → List ℕ };

    /// what 32 bytes are decrypted to under a key: one fixed function of the two
    ghost decrypted: { Self → List ℕ → List ℕ → List ℕ };

    fn encrypt(&self, key: &[u8; 32], plain: &[u8; 32]) -> [u8; 32]
        ensures { result ≡ encrypted self.now key.now plain.now };

    fn decrypt(&self, key: &[u8; 32], hidden: &[u8; 32]) -> [u8; 32]
        ensures { result ≡ decrypted self.now key.now hidden.now };

    ghost back: { (cipher : Self) (key plain : List ℕ) → length key ≡ 32 → length plain ≡ 32 → decrypted cipher key (encrypted cipher key plain) ≡ plain };

    ghost sized: { (cipher : Self) (key plain : List ℕ) → length key ≡ 32 → length plain ≡ 32 → length (encrypted cipher key plain) ≡ 32 };
}
