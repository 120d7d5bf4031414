//! The proved libraries as functions of C, on numbers and byte slices, so that a program in another language can be compared
//! with them. Nothing here adds to what the libraries do: each function calls one of theirs and tells its answer in numbers.
#![tactic(auto)]

mod frames;
mod headers;
mod numbers;
mod reading;
mod reels;
mod scripts;
mod sending;
mod session;
mod terms;
pub mod totals;
mod tracing;
