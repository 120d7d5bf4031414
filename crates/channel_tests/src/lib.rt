//! Examples of channels at work, apart from their crate so that its proofs are not done twice.
#![tactic(auto)]

#[cfg(test)]
mod fading;
#[cfg(test)]
mod going_round;
