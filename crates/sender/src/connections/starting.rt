// A new connection.
ghost use Rattle.std.specs.Prelude.{◌≡◌, IfOk};
ghost use Rattle.sink.specs.Meaning.{Meaning};
ghost use Rattle.sender.specs.Connections.{moment_of};
ghost use Rattle.model.specs.Laws.{Begins};

use crate::connections::Connection;
use credit::Gate;
use records::Table;
use schedule::Policy;
use std::alloc::{AllocError, Global};

impl<G: Gate + Drop, P: Policy + Drop> Connection<G, P> {
    // A fresh connection over a gate and a policy, which it keeps as they are.
    pub fn new(heap: Global, gate: G, policy: P) -> Result<Connection<G, P>, AllocError>
        ensures begins { IfOk result (λ c. (k : Meaning) → Begins (G.Gate.meaning gate) (P.Policy.ranks policy) k (moment_of G.Gate P.Policy c k)) }
        ensures keeps { IfOk result (λ c. (c.gate ≡ gate) × (c.policy ≡ policy)) }
    {
        let streams = Table::new(heap)?;
        Ok(Connection {
            gate,
            policy,
            streams,
            live: true,
            frame_size: 16_384,
            highest: 0,
            given: 0,
        })
    }
}
