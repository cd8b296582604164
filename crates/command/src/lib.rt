//! The lines of a command file: cutting them out of its bytes, and reading the command that each spells.
#![tactic(auto)]

ghost use Rattle.std.specs.Prelude.{◌≡◌};
ghost use Rattle.std.specs.Result.{result_ok};
ghost use Rattle.command.specs.Schemes.{scheme_numbered};

pub mod line;
pub mod reading;

/// Which authentication code and cipher the box works with.
#[derive(Clone, Copy)]
pub enum Scheme {
    /// HMAC-SHA-256, and ChaCha20.
    HmacSha256,
    /// Keyed BLAKE2s, and the cipher over it.
    Blake2s,
}

/// A number that no scheme has.
#[derive(Clone, Copy, PartialEq, Eq, Debug)]
pub struct UnknownScheme;

impl TryFrom<u16> for Scheme {
    type Error = UnknownScheme;

    ghost try_from_gives = { λ number scheme. result_ok scheme ≡ scheme_numbered number };

    fn try_from(number: u16) -> Result<Scheme, UnknownScheme> {
        match number {
            1 => Ok(Scheme::HmacSha256),
            2 => Ok(Scheme::Blake2s),
            _ => Err(UnknownScheme),
        }
    }
}

/// A line that can be read. `B` is what holds bytes of any number: a part of the line, where it was read from one.
#[derive(Clone, Copy)]
pub enum Command<B> {
    /// `S`: chooses the scheme.
    Scheme(Scheme),
    /// `A`: lists an account.
    Account { number: u16, key: [u8; 32] },
    /// `O`: lists an office.
    Office { number: u16, key: [u8; 32] },
    /// `F`: lists a sheet file.
    Sheet { path: B, account: u16, cards: u32 },
}
