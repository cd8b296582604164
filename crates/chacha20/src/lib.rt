//! The ChaCha20 block function (RFC 8439).
#![tactic(auto)]

pub mod block;
mod rounds;
