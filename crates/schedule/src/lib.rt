// Scheduling: the interface of a policy, which says whose turn it is.
#![tactic(auto)]

pub mod policies;

pub use policies::{Policy, serve_next};
