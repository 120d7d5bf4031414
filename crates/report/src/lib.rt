//! What a reel holds, for people and for databases: every packet and every loss, totals, names of files, pictures.
#![tactic(auto)]

pub mod catalogue;
pub mod entry;
pub mod json;
pub mod names;
pub mod settings;
pub mod source;
pub mod summary;
pub mod text;
pub mod totals;
pub mod visit;
pub mod walk;
pub mod words;
