//! The run law of a flow: histories, what it says of them, and the proof of what lies between a writer and a reader.
#![tactic(auto)]

pub mod law;
pub mod losses;
pub mod trials;
