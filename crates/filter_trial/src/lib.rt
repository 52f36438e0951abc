//! The tests of what a filter is made of: expressions, sets of numbers and of names, packets and their words, rules and
//! the walk over them, the laws, the graph of calls; and of the packet of a service and the dump of `load`.
#![tactic(auto)]

#[cfg(test)]
mod dumps;
#[cfg(test)]
mod laws;
#[cfg(test)]
mod names;
#[cfg(test)]
mod numbers;
#[cfg(test)]
mod packets;
#[cfg(test)]
mod walks;
#[cfg(test)]
mod words;
