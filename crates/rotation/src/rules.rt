// The rules by which ids of one urgency take their turns.
ghost use Rattle.std.specs.Prelude.{◌≡◌, ℕ, ◌⊎◌};
ghost use Rattle.wire.specs.Urgencies.{urgency_number};
ghost use Rattle.rotation.specs.declared.seats.Seat.{Seat};
ghost use Rattle.rotation.specs.declared.standings.Standing.{Standing};
ghost use Rattle.rotation.specs.Choices.{in_turn, plain_first};
ghost use Rattle.std.proofs.Common.{rules};

use crate::seats::Seat;
use crate::standings::{Group, Standing};

// A rule: where a seat at a place of the order stands among others.
pub trait Rule {
    ghost stands: { ℕ → Seat → Standing };

    // Where a seat at a place stands.
    fn standing(place: usize, seat: &Seat) -> Standing
        ensures { result ≡ stands place seat.now };

    // the urgency counts before all else
    ghost urgent: { (i : ℕ) (a : Seat) → (stands i a).urgency ≡ urgency_number a.priority.urgency };

    // seats of different ids at different places do not stand alike
    ghost apart: { (i j : ℕ) (a b : Seat) → stands i a ≡ stands j b → (a.id ≡ b.id) ⊎ (i ≡ j) };
}

// The id served longest ago comes first, and those never served before it.
pub enum InTurn {}

impl Rule for InTurn {
    ghost stands = { in_turn };

    ghost urgent = { Prim.search rules };

    ghost apart = { Prim.search rules };

    fn standing(place: usize, seat: &Seat) -> Standing {
        let urgency = seat.priority.urgency.number();
        if seat.served {
            Standing {
                urgency,
                group: Group::Served.number(),
                number: place as u64,
            }
        } else {
            Standing {
                urgency,
                group: Group::New.number(),
                number: u64::from(seat.id),
            }
        }
    }
}

// The smallest id that is not incremental comes first, and then the others in turn.
pub enum PlainFirst {}

impl Rule for PlainFirst {
    ghost stands = { plain_first };

    ghost urgent = { Prim.search rules };

    ghost apart = { Prim.search rules };

    fn standing(place: usize, seat: &Seat) -> Standing {
        if seat.priority.incremental {
            return InTurn::standing(place, seat);
        }
        Standing {
            urgency: seat.priority.urgency.number(),
            group: Group::Plain.number(),
            number: u64::from(seat.id),
        }
    }
}
