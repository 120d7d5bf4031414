//! Channels: where the frames of a broadcast wait between the sender and the receiver.
#![tactic(auto)]

pub mod channel;
pub mod fade;
pub mod pattern;
pub mod pile;
pub mod ring;
pub mod sending;
