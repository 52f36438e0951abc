//! The tests of the texts of addresses, the words of a line, the names of chains, and sources and sinks.
#![tactic(auto)]

#[cfg(test)]
mod streams;
#[cfg(test)]
mod texts;
