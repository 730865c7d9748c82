// Our stacks of gates from their first call on: what they promise, with no premise left.
#![tactic(auto)]

ghost use Rattle.std.specs.Prelude.{◌≡◌, true, IfOk};

use credit::{Cap, Gate};
use std::alloc::{AllocError, Global};
use windows::Windows;
use windows::gates::Layout;

// Begins a stream on a fresh cap of 1,000 over either bottom gate and holds as much: both are accepted.
pub fn first_hold<L: Layout>(heap: Global) -> Result<bool, AllocError>
    ensures { IfOk result (λ held. held ≡ true) }
{
    let mut gate = Cap::over(Windows::<L>::new(heap)?, 1_000);
    if !gate.begin(1) {
        return Ok(false);
    }
    Ok(gate.hold(1, 1_000))
}
