// Streams are opened, and octets are offered.
ghost use Rattle.std.specs.Prelude.{◌≡◌};
ghost use Rattle.sink.specs.Meaning.{Meaning};
ghost use Rattle.wire.specs.Values.{value_of};
ghost use Rattle.model.specs.Calls.{opening, offer};
ghost use Rattle.model.specs.Laws.{Steps, GoesOn};
ghost use Rattle.model.specs.Rules.{read_or};
ghost use Rattle.sender.specs.Connections.{moment_of};

use crate::connections::Connection;
use credit::Gate;
use model::Done;
use schedule::Policy;
use wire::{Cause, Fault, Priority, Urgency, read_priority};

// The priority that a stream opens with: an unreadable value gives urgency 3, not incremental.
fn first_priority(value: &[u8]) -> Priority
    ensures { result ≡ read_or (value_of value.now) }
{
    read_priority(value).unwrap_or(Priority {
        urgency: Urgency::U3,
        incremental: false,
    })
}

impl<G: Gate, P: Policy> Connection<G, P> {
    // Opens a stream by the rules; what histories make of it is the public call's promise.
    fn opened(&mut self, id: u32, value: &[u8]) -> Result<Done, Fault>
        ensures { (k : Meaning) → Steps (moment_of G.Gate P.Policy self.old k) (opening id value.now) result (moment_of G.Gate P.Policy self.new k) }
    {
        self.alive()?;
        self.openable(id)?;
        if self.full() {
            self.highest = id;
            return Err(Fault::new(Cause::Full, id, 0));
        }
        let priority = first_priority(value);
        self.begin(id, priority);
        Ok(Done::Opened { id, priority })
    }

    // Opens a stream with an empty queue and the priority that a value tells.
    pub fn open(&mut self, id: u32, value: &[u8]) -> Result<Done, Fault>
        ensures { (k : Meaning) → GoesOn (moment_of G.Gate P.Policy self.old k) (opening id value.now) result (moment_of G.Gate P.Policy self.new k) }
    {
        self.opened(id, value)
    }

    // Queues octets by the rules; what histories make of it is the public call's promise.
    fn offered(&mut self, id: u32, octets: u32, end: bool) -> Result<Done, Fault>
        ensures { (k : Meaning) → Steps (moment_of G.Gate P.Policy self.old k) (offer id octets end) result (moment_of G.Gate P.Policy self.new k) }
    {
        self.alive()?;
        let Some(stream) = self.streams.get_mut(id) else {
            return Err(Fault::new(Cause::NotOpen, id, 0));
        };
        stream.offer(octets, end)
    }

    // Queues octets of a stream, and perhaps their end.
    pub fn offer(&mut self, id: u32, octets: u32, end: bool) -> Result<Done, Fault>
        ensures { (k : Meaning) → GoesOn (moment_of G.Gate P.Policy self.old k) (offer id octets end) result (moment_of G.Gate P.Policy self.new k) }
    {
        self.offered(id, octets, end)
    }
}
