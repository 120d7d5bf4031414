//! The reading side: slots in, packets and what is missing out.
#![tactic(auto)]

pub mod answer;
mod handing;
pub mod reader;
mod reading;
pub mod receiver;
mod receiving;
mod state;
pub mod terms;
mod told;
mod walking;
