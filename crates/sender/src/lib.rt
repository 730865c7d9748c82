// The sending half of one connection, written once above any gate and any policy.
#![tactic(auto)]

pub mod connections;
pub mod streams;

pub use connections::Connection;
pub use connections::reading::{ConnectionReading, StreamReading};
