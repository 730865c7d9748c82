// A connection: its gate, its policy, the table of its open streams, and what it counts.
ghost use Rattle.std.specs.Prelude.{◌≡◌, true};
ghost use Rattle.records.specs.Tables.{Roomy};
ghost use Rattle.sender.specs.Streams.{ordered};

use crate::streams::Stream;
use records::Table;

pub mod asking;
pub mod moving;
pub mod opening;
pub mod reading;
pub mod receiving;
pub mod settings;
pub mod starting;
pub mod updating;

// That gate, policy and table stand together is no field, since a connection may be made over a gate that is not fresh.
#[derive(Drop)]
pub struct Connection<G, P> {
    gate: G,
    policy: P,
    streams: Table<Stream>,
    live: bool,
    frame_size: u32,
    highest: u32,
    given: u32,
    ghost roomy: { Roomy streams },
    ghost order: { ordered 0 highest streams.rows.items ≡ true },
}
