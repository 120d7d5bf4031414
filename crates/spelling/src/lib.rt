//! Scripts as text: their lines and words, and the bytes and numbers that words spell.
#![tactic(auto)]

pub mod answer;
pub mod decimal;
pub mod fault;
pub mod hex;
pub mod lines;
pub mod optional;
pub mod words;
