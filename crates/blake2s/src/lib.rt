//! BLAKE2s (RFC 7693) with results of 32 bytes: the hash without a key, and the authentication code with a key of 32 bytes.
#![tactic(auto)]

pub mod code;
mod compression;
pub mod hash;
mod mixing;
mod tables;
