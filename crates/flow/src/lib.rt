//! One flow of packets over a channel: both sides, and the run law on its calls.
#![tactic(auto)]

mod alone;
mod cutting;
pub mod faults;
pub mod flow;
mod holding;
mod joining;
pub mod laws;
mod padding;
mod placing;
#[cfg(test)]
mod tests;
pub mod token;
mod unfinished;
mod writer;
