//! Tries runs of the program whose streams fail at one call, with words and streams in memory.
#![tactic(auto)]

#[cfg(test)]
mod tests;
