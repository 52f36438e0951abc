//! What no run of the program shows of `dump_grammar` and `dump_read`: the words of a match that isn't understood, a text
//! that comes in pieces, and the laws. They stand in a crate of their own, so that those two are proved once.
#![tactic(auto)]

#[cfg(test)]
mod literals;
#[cfg(test)]
mod text_tests;
