//! Calls the upper crates with ample memory, since no contract says that a call succeeds: cubes and groups of addresses, what a filter
//! may and must accept, and the answers to questions.
#![tactic(auto)]

#[cfg(test)]
mod cubes;
#[cfg(test)]
mod dumps;
#[cfg(test)]
mod filters;
#[cfg(test)]
mod groups;
#[cfg(test)]
mod laws;
#[cfg(test)]
mod questions;
#[cfg(test)]
mod regions;
