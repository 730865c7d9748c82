// Our policies from their first call on, with no premise left.
ghost use Rattle.std.specs.Prelude.{◌≡◌, IfOk, Some};

use rotation::{Ordered, Turns};
use schedule::{Policy, serve_next};
use std::alloc::{AllocError, Global};
use wire::{Priority, Urgency};

const PLAIN: Priority = Priority {
    urgency: Urgency::U3,
    incremental: false,
};

const INCREMENTAL: Priority = Priority {
    urgency: Urgency::U3,
    incremental: true,
};

// Two ids of one urgency take turns.
pub fn three_turns(heap: Global) -> Result<(Option<u32>, Option<u32>, Option<u32>), AllocError>
    ensures { IfOk result (λ a. (a.0 ≡ Some 1) × (a.1 ≡ Some 3) × (a.2 ≡ Some 1)) }
{
    let mut turns = Turns::new(heap)?;
    turns.enter(3, PLAIN);
    turns.enter(1, PLAIN);
    let mut next = || serve_next(&mut turns, &[3, 1], 100);
    Ok((next(), next(), next()))
}

// An id that is not incremental goes before a smaller one that is, and does so again after it was served.
pub fn plain_before_incremental(heap: Global) -> Result<(Option<u32>, Option<u32>), AllocError>
    ensures { IfOk result (λ a. (a.0 ≡ Some 3) × (a.1 ≡ Some 3)) }
{
    let mut ordered = Ordered::new(heap)?;
    ordered.enter(1, INCREMENTAL);
    ordered.enter(3, PLAIN);
    let mut next = || serve_next(&mut ordered, &[1, 3], 100);
    Ok((next(), next()))
}
