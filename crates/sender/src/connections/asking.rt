// What a connection asks itself before it moves.
ghost use Rattle.std.specs.Prelude.{Decides};
ghost use Rattle.sink.specs.Meaning.{Meaning};
ghost use Rattle.model.specs.Rules.{Full};
ghost use Rattle.sender.specs.Connections.{state_of};
ghost use Rattle.sender.specs.Answers.{Living, Naming};

use crate::connections::Connection;
use credit::Gate;
use schedule::Policy;
use wire::{Cause, Fault};

impl<G: Gate, P: Policy> Connection<G, P> {
    // Refuses a call where the connection has ended.
    pub(crate) fn alive(&self) -> Result<(), Fault>
        ensures { Living self.now.live result }
    {
        if self.live {
            Ok(())
        } else {
            Err(Fault::new(Cause::Ended, 0, 0))
        }
    }

    // Refuses an id that no stream may be opened with.
    pub(crate) fn openable(&self, id: u32) -> Result<(), Fault>
        ensures { Naming self.now.highest id result }
    {
        if id % 2 == 0 || id > 2_147_483_647 || id <= self.highest {
            return Err(Fault::new(Cause::BadId, id, 0));
        }
        Ok(())
    }

    // Whether no stream more can be had.
    pub(crate) fn full(&self) -> bool
        ensures { (k : Meaning) → Decides result (Full (state_of G.Gate P.Policy self.now k)) }
    {
        self.streams.len() >= 64
            || self.gate.begun() >= self.gate.limit()
            || self.policy.entered() >= self.policy.limit()
    }
}
