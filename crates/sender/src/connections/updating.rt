// WINDOW_UPDATE, RST_STREAM and PRIORITY_UPDATE.
ghost use Rattle.sink.specs.Meaning.{Meaning};
ghost use Rattle.wire.specs.Frames.{window_update, reset_stream, priority_update};
ghost use Rattle.model.specs.Rules.{IsOpen};
ghost use Rattle.sender.specs.Answers.{Handles, Stands};
ghost use Rattle.sender.specs.Connections.{moment_of, state_of};

use crate::connections::Connection;
use credit::Gate;
use schedule::Policy;
use wire::{Cause, Fault, read_priority_update};

// What an id is: open, closed, or idle.
#[derive(Clone, Copy, PartialEq, Eq, Debug)]
pub enum Standing {
    Open,
    Closed,
    Idle,
}

impl<G: Gate, P: Policy> Connection<G, P> {
    // Whether a stream is open, closed or idle.
    pub(crate) fn standing(&self, id: u32) -> Standing
        ensures { (k : Meaning) → Stands (state_of G.Gate P.Policy self.now k) id result }
    {
        if self.streams.get(id).is_some() {
            return Standing::Open;
        }
        if id % 2 == 0 || id > self.highest {
            return Standing::Idle;
        }
        Standing::Closed
    }

    // An increment of the connection's window.
    fn raise_connection(&mut self, increment: u32) -> Result<bool, Fault>
        ensures { (k : Meaning) → Handles (moment_of G.Gate P.Policy self.old k) (window_update 0 increment) result (moment_of G.Gate P.Policy self.new k) }
    {
        if increment == 0 {
            return Err(Fault::new(Cause::Protocol, 0, 9));
        }
        if !self.gate.raise(0, increment) {
            return Err(Fault::new(Cause::FlowControl, 0, 9));
        }
        Ok(true)
    }

    // An increment of an open stream's window.
    fn raise_stream(&mut self, id: u32, increment: u32) -> Result<bool, Fault>
        ensures { (k : Meaning) → IsOpen (state_of G.Gate P.Policy self.old k) id → Handles (moment_of G.Gate P.Policy self.old k) (window_update id increment) result (moment_of G.Gate P.Policy self.new k) }
    {
        if increment == 0 {
            self.close(id);
            return Err(Fault::new(Cause::NoIncrement, id, 9));
        }
        if !self.gate.raise(id, increment) {
            self.close(id);
            return Err(Fault::new(Cause::WindowOverflow, id, 9));
        }
        Ok(true)
    }

    pub(crate) fn window_update(&mut self, id: u32, increment: u32) -> Result<bool, Fault>
        ensures { (k : Meaning) → Handles (moment_of G.Gate P.Policy self.old k) (window_update id increment) result (moment_of G.Gate P.Policy self.new k) }
    {
        if id == 0 {
            return self.raise_connection(increment);
        }
        match self.standing(id) {
            Standing::Idle => Err(Fault::new(Cause::Protocol, 0, 5)),
            Standing::Closed => Ok(false),
            Standing::Open => self.raise_stream(id, increment),
        }
    }

    pub(crate) fn reset_stream(&mut self, id: u32, code: u32) -> Result<bool, Fault>
        ensures { (k : Meaning) → Handles (moment_of G.Gate P.Policy self.old k) (reset_stream id code) result (moment_of G.Gate P.Policy self.new k) }
    {
        if id == 0 {
            return Err(Fault::new(Cause::Protocol, 0, 5));
        }
        match self.standing(id) {
            Standing::Idle => Err(Fault::new(Cause::Protocol, 0, 5)),
            Standing::Closed => Ok(false),
            Standing::Open => {
                self.close(id);
                Ok(true)
            }
        }
    }

    pub(crate) fn priority_update(
        &mut self,
        target: u32,
        value: &[u8],
        place: u32,
    ) -> Result<bool, Fault>
        ensures { (k : Meaning) → Handles (moment_of G.Gate P.Policy self.old k) (priority_update target value.now place) result (moment_of G.Gate P.Policy self.new k) }
    {
        if target % 2 == 0 {
            return Err(Fault::new(Cause::Protocol, 0, 9));
        }
        if self.streams.get(target).is_none() {
            return Ok(false);
        }
        let priority = read_priority_update(target, value)?;
        let _ = self.policy.alter(target, priority);
        Ok(true)
    }
}
