//! Scripts: a list of steps, run on a newly set-up flow.
#![tactic(auto)]

pub mod reply;
pub mod running;
pub mod session;
pub mod step;
mod stepping;
mod stopped;
#[cfg(test)]
mod tests;
