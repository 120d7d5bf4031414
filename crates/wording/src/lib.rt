//! What the commands of a script print: for each answer its lines, to the letter.
#![tactic(auto)]

pub mod answering;
mod answers;
pub mod replies;
