//! SHA-256 (FIPS 180-4), and HMAC over it as a message authentication code.
#![tactic(auto)]

pub mod code;
mod compression;
pub mod hash;
mod padding;
mod schedule;
mod tables;
