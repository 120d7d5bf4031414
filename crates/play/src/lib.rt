//! The gallery's scripts: one command a line, played on flows, and for each command the lines that answer it.
#![tactic(auto)]

mod arguments;
pub mod command;
pub mod parsing;
pub mod playing;
mod stage;
