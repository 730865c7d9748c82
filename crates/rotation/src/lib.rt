// Turns and ordered, our two policies: one order of seats under two rules.
#![tactic(auto)]

pub mod rotations;
pub mod rules;
pub mod seats;
pub mod standings;

pub use rotations::{Ordered, Rotation, Turns};
pub use rules::Rule;
