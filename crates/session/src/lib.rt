//! A run over a command file: what the lines so far have set up, and the answer to each line.
#![tactic(auto)]

pub mod run;
pub mod setup;
