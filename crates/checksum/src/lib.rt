//! Checksums of byte strings: what a checksum promises, and two of them.
#![tactic(auto)]

pub mod checksum;
pub mod choice;
pub mod crc16;
pub mod none;
mod table;
#[cfg(test)]
mod tests;
