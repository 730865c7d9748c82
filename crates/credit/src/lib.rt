// Send credit: the interface of a gate, and the cap over any gate.
#![tactic(auto)]

pub mod caps;
pub mod gates;
pub mod transfers;
pub mod worked;

pub use caps::Cap;
pub use gates::Gate;
pub use transfers::transfer;
pub use worked::worked_credit;
