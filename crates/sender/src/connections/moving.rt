// A stream begins, and a stream ends: in the gate, in the policy and in the table.
ghost use Rattle.std.specs.Prelude.{◌≡◌, ◌<◌};
ghost use Rattle.sink.specs.Meaning.{Meaning};
ghost use Rattle.model.specs.States.{Tied};
ghost use Rattle.model.specs.Rules.{Full, IsOpen};
ghost use Rattle.model.specs.Happenings.{after, starting, closing};
ghost use Rattle.sender.specs.Connections.{state_of};

use crate::connections::Connection;
use crate::streams::Stream;
use credit::Gate;
use schedule::Policy;
use wire::Priority;

impl<G: Gate, P: Policy> Connection<G, P> {
    // A stream above all others begins.
    pub(crate) fn begin(&mut self, id: u32, priority: Priority)
        requires { self.old.highest < id }
        ensures { (k : Meaning) → Tied (state_of G.Gate P.Policy self.old k) → (Full (state_of G.Gate P.Policy self.old k) → ⊥) → (state_of G.Gate P.Policy self.new k ≡ after (state_of G.Gate P.Policy self.old k) (starting id priority)) }
    {
        let _ = self.gate.begin(id);
        let _ = self.policy.enter(id, priority);
        let _ = self.streams.add(Stream {
            id,
            queue: 0,
            ended: false,
            grant: None,
        });
        self.highest = id;
    }

    // An open stream ends, and what it held goes back to the connection.
    pub(crate) fn close(&mut self, id: u32)
        ensures { (k : Meaning) → Tied (state_of G.Gate P.Policy self.old k) → IsOpen (state_of G.Gate P.Policy self.old k) id → (state_of G.Gate P.Policy self.new k ≡ after (state_of G.Gate P.Policy self.old k) (closing id)) }
    {
        let _ = self.gate.finish(id);
        let _ = self.policy.leave(id);
        let _ = self.streams.remove(id);
    }
}
