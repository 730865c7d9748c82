// Priority values, of RFC 9218: which urgency and which incremental flag one tells.
mod values;

ghost use Rattle.std.specs.Prelude.{◌≡◌};
ghost use Rattle.std.specs.Option.{ok_or};
ghost use Rattle.wire.specs.Faults.{unreadable_priority};
ghost use Rattle.wire.specs.Grammar.{Reads, priority_of, urgency_of, is_true};
ghost use Rattle.wire.specs.Values.{value_of};

use crate::{Fault, Urgency};

// A priority: an urgency, and whether the response may be sent in turn with others of its urgency.
#[derive(Clone, Copy, PartialEq, Eq, Debug)]
pub struct Priority {
    pub urgency: Urgency,
    pub incremental: bool,
}

// What a member of a priority value says: true or false, or an integer.
#[derive(Clone, Copy)]
pub enum Item {
    Boolean(bool),
    Integer(i64),
}

// The latest members `u` and `i` of a value; an absent one is none.
#[derive(Clone, Copy, Default)]
pub struct Latest {
    pub u: Option<Item>,
    pub i: Option<Item>,
}

// The longest value that is read.
const LONGEST: usize = 256;

// The priority that a value tells; none where it is unreadable.
#[tactic(auto, using(crate::proofs::Readings::reads))]
pub fn read_priority(value: &[u8]) -> Option<Priority>
    ensures value { result ≡ value_of value.now }
    ensures grammar { Reads value.now result }
{
    if value.len() > LONGEST {
        return None;
    }
    values::read_latest(value).map(meant)
}

// The priority that a PRIORITY_UPDATE frame tells of its target; fault 8 where its value is unreadable.
pub fn read_priority_update(target: u32, value: &[u8]) -> Result<Priority, Fault>
    ensures { result ≡ ok_or (value_of value.now) (unreadable_priority target) }
{
    read_priority(value).ok_or_else(|| Fault::unreadable_priority(target))
}

fn meant(latest: Latest) -> Priority
    ensures { result ≡ priority_of latest }
{
    Priority {
        urgency: urgency_of(latest.u),
        incremental: is_true(latest.i),
    }
}

// An integer from 0 to 7 is an urgency; anything else, and an absent member, is the default.
fn urgency_of(item: Option<Item>) -> Urgency
    ensures { result ≡ urgency_of item }
{
    match item {
        Some(Item::Integer(n @ 0..=7)) => Urgency::try_from(n as u8).unwrap_or(Urgency::U3),
        _ => Urgency::U3,
    }
}

fn is_true(item: Option<Item>) -> bool
    ensures { result ≡ is_true item }
{
    matches!(item, Some(Item::Boolean(true)))
}
