// A rotation is a policy.
ghost use Rattle.std.specs.Prelude.{None};
ghost use Rattle.rotation.specs.Orders.{ranked, Turned};
ghost use Rattle.rotation.specs.Rotations.{order_in};
ghost use Rattle.rotation.specs.Choices.{standing_of, chosen};
ghost use Rattle.rotation.specs.Answering.{least-from};
ghost use Rattle.rotation.specs.Choosing.{chosen-first};
ghost use Rattle.rotation.specs.Places.{stands-apart};
ghost use Rattle.rotation.specs.Turning.{turned-means};
ghost use Rattle.std.proofs.Common.{rules};

use crate::rotations::Rotation;
use crate::rules::Rule;
use crate::seats::Seat;
use schedule::Policy;
use wire::Priority;

// The most seats of an order, as of every table.
const LIMIT: usize = 64;

impl<R: Rule> Policy for Rotation<R> {
    ghost ranks = { λ s. ranked (order_in s) };

    ghost picks = { λ s ids. chosen (standing_of R.Rule.stands (order_in s)) None ids };

    ghost turned = { λ s event t. Turned (order_in s) event (order_in t) };

    ghost sound = { Prim.search rules };

    ghost least = { λ s ids.
        let order = s.table.rows.items in
        let rule = R.Rule.stands in
        least-from rule R.Rule.urgent order ids (chosen (standing_of rule order) None ids) (chosen-first (standing_of rule order) (stands-apart rule R.Rule.apart order) ids) };

    ghost means = { λ s event t turned. turned-means s.table.rows.items t.table.rows.items event s.distinct turned };

    fn enter(&mut self, id: u32, priority: Priority) -> bool {
        if self.table.len() >= LIMIT {
            return false;
        }
        if self.table.get(id).is_some() {
            return false;
        }
        self.table.add(Seat {
            id,
            priority,
            served: false,
        })
    }

    fn alter(&mut self, id: u32, priority: Priority) -> bool {
        let Some(seat) = self.table.get_mut(id) else {
            return false;
        };
        seat.priority = priority;
        true
    }

    fn leave(&mut self, id: u32) -> bool {
        self.table.remove(id).is_some()
    }

    fn served(&mut self, id: u32, octets: u32) {
        let Some(seat) = self.table.remove(id) else {
            return;
        };
        self.table.add(Seat {
            served: true,
            ..seat
        });
    }

    fn choose(&self, ids: &[u32]) -> Option<u32> {
        self.first(ids)
    }

    fn priority(&self, id: u32) -> Option<Priority> {
        self.table.get(id).map(|seat| seat.priority)
    }

    fn entered(&self) -> u32 {
        self.table.len() as u32
    }

    fn limit(&self) -> u32 {
        LIMIT as u32
    }
}
