//! Answers to the lines of a command file, and the output line that reports each.
#![tactic(auto)]

pub mod line;

use refusal::Refusal;

/// What a line of a command file comes to: it was carried out, or it was turned down and changed nothing.
pub type Answer = Result<(), Refusal>;
