//! A picture of a reel.
#![tactic(auto)]

pub mod layout;
pub mod map;
