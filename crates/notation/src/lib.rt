//! How a line of text spells its values: fields, decimal numbers, hexadecimal bytes.
#![tactic(auto)]

pub mod decimal;
pub mod fields;
pub mod hex;
