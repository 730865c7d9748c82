// Whose turn it is under our policies: from the first call on, and after any history of calls.
#![tactic(auto)]

pub mod waits;
pub mod worked;

pub use waits::{Waits, foremost, longest_waiting, plain_or_longest_waiting};
pub use worked::{plain_before_incremental, three_turns};
