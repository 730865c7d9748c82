// A rotation: an order of seats under a rule.
ghost use Rattle.std.specs.Prelude.{◌≡◌, [], IfOk, None};
ghost use Rattle.records.specs.Tables.{Roomy};
ghost use Rattle.schedule.specs.Ranks.{fresh};
ghost use Rattle.rotation.specs.Orders.{ranked, Distinct, distinct_prop};
ghost use Rattle.rotation.specs.Choices.{standing_of, better, chosen, First};

use crate::rules::{InTurn, PlainFirst, Rule};
use crate::seats::Seat;
use crate::standings::{Standing, is_sooner};
use records::{Table, find};
use std::alloc::{AllocError, Global};
use std::marker::PhantomData;

pub mod calls;

// The order of at most 64 seats, in the table's own order, and the rule that chooses among them.
#[derive(Drop)]
pub struct Rotation<R> {
    table: Table<Seat>,
    rule: PhantomData<R>,
    pub ghost roomy: { Roomy table },
    pub ghost distinct: { Distinct table.rows.items } by { distinct_prop table.rows.items },
}

// Takes, within the least urgency, the id served longest ago.
pub type Turns = Rotation<InTurn>;

// Takes, within the least urgency, the smallest id that is not incremental, else the id served longest ago.
pub type Ordered = Rotation<PlainFirst>;

impl<R: Rule> Rotation<R> {
    ghost use Rattle.rotation.specs.Rotations.{order_in};

    // An empty order, with the memory for 64 seats; only here can memory be wanting.
    pub fn new(heap: Global) -> Result<Rotation<R>, AllocError>
        ensures { IfOk result (λ s. (order_in s ≡ []) × (ranked (order_in s) ≡ fresh 64)) }
    {
        let table = Table::new(heap)?;
        Ok(Rotation {
            table,
            rule: PhantomData,
        })
    }

    // Where an id stands; none where it has no seat.
    fn standing(&self, id: u32) -> Option<Standing>
        ensures { result ≡ standing_of R.Rule.stands (order_in self.now) id }
    {
        let place = find(self.table.rows.as_slice(), id)?;
        Some(R::standing(place, &self.table.rows[place]))
    }

    // The better of the best id so far and another.
    fn better(&self, best: Option<u32>, id: u32) -> Option<u32>
        ensures { result ≡ better (standing_of R.Rule.stands (order_in self.now)) best id }
    {
        let best_standing = best.and_then(|b| self.standing(b));
        if is_sooner(self.standing(id), best_standing) {
            Some(id)
        } else {
            best
        }
    }

    // The listed id that comes first; none where no listed id has a seat.
    pub fn first(&self, ids: &[u32]) -> Option<u32>
        ensures chosen { result ≡ chosen (standing_of R.Rule.stands (order_in self.now)) None ids.now }
        ensures first { First (standing_of R.Rule.stands (order_in self.now)) ids.now result }
    {
        let mut best = None;
        // A fold carries the best so far no more plainly than this loop.
        for id in ids {
            best = self.better(best, *id);
        }
        best
    }
}
