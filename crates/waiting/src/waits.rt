// Whose turn it is, by the history of calls alone.
ghost use Rattle.std.specs.Prelude.{◌≡◌, ℕ, true, List};
ghost use Rattle.wire.specs.declared.priorities.Priority.{Priority};
ghost use Rattle.schedule.specs.Ranks.{Event};
ghost use Rattle.rotation.specs.declared.seats.Seat.{Seat};
ghost use Rattle.rotation.specs.Choices.{before};
ghost use Rattle.rotation.specs.Rotations.{order_in};
ghost use Rattle.waiting.specs.Histories.{Placed};
ghost use Rattle.waiting.specs.Waits.{ByHistory, GoesBefore, waited_longer, plain_or_waited};
ghost use Rattle.waiting.specs.Going.{turn-goes, plain-goes};

use rotation::rules::{InTurn, PlainFirst};
use rotation::{Ordered, Rotation, Rule, Turns};

// A rule whose order can also be told from the history of calls.
pub trait Waits: Rule {
    // whether an id with its priority goes before another of the same urgency, after a history
    ghost ahead: { List Event → ℕ → Priority → ℕ → Priority → Type 0 };

    // of two seats that a history placed, the one that stands before the other goes before it
    ghost goes: { (history : List Event) (i j : ℕ) (a b : Seat) → Placed history i j a b → before (Self.stands i a) (Self.stands j b) ≡ true → GoesBefore (ahead history) a.id a.priority b.id b.priority };
}

impl Waits for InTurn {
    ghost ahead = { waited_longer };

    ghost goes = { turn-goes };
}

impl Waits for PlainFirst {
    ghost ahead = { plain_or_waited };

    ghost goes = { plain-goes };
}

// Of the listed ids that are in and of the least urgency, the one that goes before the others by the rule.
pub fn foremost<R: Waits>(rotation: &Rotation<R>, ids: &[u32]) -> Option<u32>
    ensures { ByHistory R.Waits.ahead (order_in rotation.now) ids.now result }
{
    rotation.first(ids)
}

// Of the listed ids that are in and of the least urgency, the one that has waited longest.
pub fn longest_waiting(turns: &Turns, ids: &[u32]) -> Option<u32>
    ensures { ByHistory waited_longer (order_in turns.now) ids.now result }
{
    foremost(turns, ids)
}

// Of the listed ids that are in and of the least urgency, the smallest that is not incremental, else the one that has waited longest.
pub fn plain_or_longest_waiting(ordered: &Ordered, ids: &[u32]) -> Option<u32>
    ensures { ByHistory plain_or_waited (order_in ordered.now) ids.now result }
{
    foremost(ordered, ids)
}
