//! Examples that no command file reaches: lists in memory that is shorter than their limit, answers with a place, comparing
//! tags, bytes that are held by value, and what the functions for other languages are made of.
#![tactic(auto)]

#[cfg(test)]
mod codes;
#[cfg(test)]
mod held_bytes;
#[cfg(test)]
mod lines;
#[cfg(test)]
mod lists;
#[cfg(test)]
mod numbers;
