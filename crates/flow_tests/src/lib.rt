//! Writing at its edges, apart from its crate so that its proofs are not done twice.
#![tactic(auto)]

#[cfg(test)]
mod carrying;
#[cfg(test)]
mod cutting;
#[cfg(test)]
mod draft;
#[cfg(test)]
mod opening;
#[cfg(test)]
mod sending;
#[cfg(test)]
mod tokens;
