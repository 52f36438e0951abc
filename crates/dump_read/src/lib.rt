//! Reads what iptables-save and ip6tables-save write as a dump.
//!
//! The text comes in pieces. Its lines are gone through once, and each line that is read is divided into its words once;
//! what isn't ended yet is kept until its end comes.
#![tactic(auto)]

mod fault;
mod keywords;
mod laws;
mod line_reader;
mod lines;
mod reader;
mod reading;
mod rules;
mod state;
mod steps;

pub use fault::ReadFault;
pub use laws::{early_faults_stay, fronts_fit, one_answer, one_kind, one_reading};
pub use reader::read_dump;
pub use reading::Reading;
