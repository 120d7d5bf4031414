//! The words of the program: what its arguments ask for, and the reports on a reel's own layout.
#![tactic(auto)]

pub mod command;
pub mod frames;
pub mod header;
pub mod help;
pub mod nearest;
pub mod verb;
pub mod verify;
