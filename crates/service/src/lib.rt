//! What a flow's packets are: services, which admit a packet or refuse it with a number, and the sync header that one of
//! them asks for.
#![tactic(auto)]

pub mod choice;
pub mod examples;
pub mod header;
mod map;
pub mod plain;
pub mod reading;
pub mod service;
pub mod sync;
#[cfg(test)]
mod tests;
pub mod words;
pub mod writing;
