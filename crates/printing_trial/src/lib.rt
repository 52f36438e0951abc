//! Calls of the laws of `printed_filter` and `printed_text`, and of `print`, at rules that are written out. They stand in a
//! crate of their own, so that those are proved once.
#![tactic(auto)]

#[cfg(test)]
mod laws;
