// What the sending half of a connection is asked and answers, the rules that it follows, and the credit law over histories.
#![tactic(auto)]

pub mod calls;
pub mod laws;

pub use calls::{Call, Done, Grant};
pub use laws::first_window;
