//! Messages as the vectors give them: a pattern, and how long the message is.
use crate::outcome::Failure;
use notation::{decimal, hex};
use std::alloc::Global;

/// The pattern over and over, cut at this length; a failure where the pattern is empty and the message is not.
fn repeated(heap: Global, pattern: &[u8], length: usize) -> Result<Vec<u8>, Failure> {
    if pattern.is_empty() && length > 0 {
        return Err(Failure::Unreadable);
    }
    let message = pattern.iter().copied().cycle().take(length).collect(heap)?;
    Ok(message)
}

/// The message of a pattern in hexadecimal and a length in decimal.
pub(crate) fn read(heap: Global, pattern: &[u8], length: &[u8]) -> Result<Vec<u8>, Failure> {
    let length = decimal::read_as::<u32>(length).ok_or(Failure::Unreadable)?;
    let mut bytes = vec![in heap; 0u8; pattern.len() / 2]?;
    hex::decode(pattern, &mut bytes)?;
    repeated(heap, &bytes, length as usize)
}
