// Records that have an id: one lookup over them, and a table that lends them.
#![tactic(auto)]

pub mod lookup;
pub mod tables;

pub use lookup::{Record, find};
pub use tables::Table;
