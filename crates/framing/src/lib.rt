//! Frames of the mobile broadcast: 122 bytes, a row of fragments.
#![tactic(auto)]

pub mod fault;
pub mod fragments;
pub mod frame;
pub mod header;
pub mod judging;
pub mod slot;
#[cfg(test)]
mod tests;
pub mod words;
