//! Reading at its edges, apart from its crate so that its proofs are not done twice.
#![tactic(auto)]

#[cfg(test)]
mod buffers;
#[cfg(test)]
mod limits;
#[cfg(test)]
mod losses;
#[cfg(test)]
mod numbers;
#[cfg(test)]
mod said;
#[cfg(test)]
mod torn;
#[cfg(test)]
mod verdicts;
