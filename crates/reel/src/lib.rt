//! Reels: recordings of the superframes of a broadcast, one block a superframe.
#![tactic(auto)]

pub mod block;
pub mod blocks;
pub mod checking;
pub mod counting;
pub mod fault;
mod parsing;
pub mod playing;
pub mod slots;
#[cfg(test)]
mod tests;
pub mod words;
