//! The packet that opens a service from one address to another.
#![tactic(auto)]

mod service;

pub use service::Service;
