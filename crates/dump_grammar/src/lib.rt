//! Reads what iptables-save and ip6tables-save write.
#![tactic(auto)]

mod addresses;
mod base;
mod chains;
mod counters;
mod division;
mod grouping;
mod heads;
mod law;
mod line_literals;
mod literals;
mod names;
mod options;
mod patterns;
mod pieces;
mod ports;
mod protocols;
mod reading;
mod rule;
mod saying;
mod targets;
mod unknown;

pub use chains::{Declared, chain_line};
pub use division::groups;
pub use grouping::{GroupWords, group};
pub use heads::rule_head;
pub use law::{one_chain_line, one_division, one_rule_line};
pub use patterns::pattern;
pub use ports::port_range;
pub use reading::rule_line;
pub use rule::{RuleLine, Target};
pub use targets::jump;
