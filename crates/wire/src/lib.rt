// HTTP/2 frames, settings, priority values and DATA: octets read, and octets written.
#![tactic(auto)]

pub mod data_frames;
pub mod faults;
pub mod frames;
pub mod headers;
pub mod kinds;
mod numbers;
pub mod parameters;
pub mod priorities;
pub mod settings;
pub mod urgencies;
pub mod worked;

pub use data_frames::{Data, read_data, write_data};
pub use faults::{Cause, ErrorCode, Fault};
pub use frames::{Frame, read_frame, split_frame};
pub use headers::Header;
pub use kinds::{Kind, UnknownKind};
pub use parameters::{Parameter, UnknownParameter};
pub use priorities::{Priority, read_priority, read_priority_update};
pub use settings::{Pairs, Setting};
pub use urgencies::{UnknownUrgency, Urgency};
pub use worked::worked_priorities;
