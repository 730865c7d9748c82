// The listing of a recording: a line for each frame of its octets, and a last line with the counts.
#![tactic(auto)]

mod lines;
mod listings;
mod printing;
mod texts;

pub use listings::Listing;
pub use listings::steps::list;
pub use printing::{list_to, print};

#[cfg(test)]
mod tests;
