//! Worked examples of the standards, proved of the definitions that the contracts of the hashes, codes and ciphers cite.
#![tactic(auto)]

ghost use Rattle.std.specs.Prelude.{◌≡◌};
ghost use Rattle.standards.specs.Examples.{WorkedExamples};

/// How many worked examples are proved: each is a field of `WorkedExamples`.
pub fn worked_examples() -> u8
    ensures count { result ≡ 8 }
    ensures proved { WorkedExamples }
{
    8
}
