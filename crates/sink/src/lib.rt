// Where DATA frames go: the interface of a sink, a sink that counts, and one that writes into memory.
#![tactic(auto)]

pub mod byte_sinks;
pub mod counting_sinks;
pub mod sinks;
pub mod tallied_sinks;
pub mod tallies;

pub use byte_sinks::{ByteSink, write_pair};
pub use counting_sinks::CountingSink;
pub use sinks::{Refusal, Sink, put_pair};
pub use tallied_sinks::{Backing, Tallied};
pub use tallies::Latest;
