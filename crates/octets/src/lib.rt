//! Plain work that the hash functions and the ciphers share: laying bytes over others, blocks of 64 bytes, 32-bit words in
//! either byte order, exclusive or, and a state of sixteen words that is mixed four at a time.
#![tactic(auto)]

pub mod block;
pub mod laying;
pub mod mask;
pub mod order;
pub mod quarters;
pub mod words;
