//! What a vector comes to, and how a line prints it.
ghost use Rattle.std.specs.Prelude.{◌≡◌, Some};
ghost use Rattle.vectors.specs.declared.outcome.Failure.TheVariants.{Unreadable, Refused, Memory};
ghost use Rattle.vectors.specs.Printed.{hex_text, outcome_text, failure_text};

use notation::hex::NotHex;
use refusal::Refusal;
use std::alloc::AllocError;
use std::fmt;

/// What a function gives for its arguments.
#[derive(Clone, Copy)]
pub(crate) enum Outcome {
    Tag([u8; 32]),
    Block([u8; 64]),
    /// 32 bytes encrypted, and decrypted again.
    Ciphered {
        hidden: [u8; 32],
        revealed: [u8; 32],
    },
}

/// Why a vector has no outcome.
#[derive(Clone, Copy)]
pub(crate) enum Failure {
    /// The line is no vector.
    Unreadable,
    /// The function refuses its arguments.
    Refused(Refusal),
    /// There is no memory for the message.
    Memory(AllocError),
}

/// Bytes, printed in hexadecimal.
#[derive(Clone, Copy)]
struct Hex<'a>(&'a [u8]);

impl fmt::Display for Hex<'_> {
    ghost output = { λ hex. Some (hex_text hex.0.now) };

    fn fmt<W: fmt::Write>(&self, f: &mut fmt::Formatter<W>) -> fmt::Result {
        for byte in self.0 {
            write!(f, "{byte:02x}")?;
        }
        Ok(())
    }
}

impl fmt::Display for Outcome {
    ghost output = { λ outcome. Some (outcome_text outcome) };

    fn fmt<W: fmt::Write>(&self, f: &mut fmt::Formatter<W>) -> fmt::Result {
        match self {
            Outcome::Tag(tag) => write!(f, "{}", Hex(tag)),
            Outcome::Block(block) => write!(f, "{}", Hex(block)),
            Outcome::Ciphered { hidden, revealed } => {
                write!(f, "{}\t{}", Hex(hidden), Hex(revealed))
            }
        }
    }
}

impl fmt::Display for Failure {
    ghost output = { λ failure. Some (failure_text failure) };

    fn fmt<W: fmt::Write>(&self, f: &mut fmt::Formatter<W>) -> fmt::Result {
        match self {
            Failure::Unreadable => write!(f, "unreadable"),
            Failure::Refused(refusal) => write!(f, "{}", refusal.number()),
            Failure::Memory(_) => write!(f, "out of memory"),
        }
    }
}

impl From<NotHex> for Failure {
    ghost from_gives = { λ _ failure. failure ≡ Unreadable };

    fn from(_error: NotHex) -> Failure {
        Failure::Unreadable
    }
}

impl From<Refusal> for Failure {
    ghost from_gives = { λ refusal failure. failure ≡ Refused refusal };

    fn from(refusal: Refusal) -> Failure {
        Failure::Refused(refusal)
    }
}

impl From<AllocError> for Failure {
    ghost from_gives = { λ error failure. failure ≡ Memory error };

    fn from(error: AllocError) -> Failure {
        Failure::Memory(error)
    }
}
