// Direct windows and offset windows, the two bottom gates.
#![tactic(auto)]

pub mod gates;

pub use gates::{DirectWindows, OffsetWindows, Windows};
