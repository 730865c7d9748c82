// Fresh connections over our gates and policies: the empty history leads to them, with no premise left.
#![tactic(auto)]

ghost use Rattle.std.specs.Prelude.{◌≡◌, IfOk};
ghost use Rattle.model.specs.Laws.{Starts};
ghost use Rattle.sender.specs.Connections.{moment_of};

use credit::{Cap, Gate};
use rotation::Rotation;
use rotation::rules::Rule;
use schedule::Policy;
use sender::Connection;
use std::alloc::{AllocError, Global};
use windows::Windows;
use windows::gates::Layout;

// A connection over direct or offset windows, with turns or ordered.
pub fn fresh_connection<L: Layout, R: Rule>(
    heap: Global,
) -> Result<Connection<Windows<L>, Rotation<R>>, AllocError>
    ensures { IfOk result (λ c. Starts (moment_of ⟦<Windows<L> as Gate>⟧ ⟦<Rotation<R> as Policy>⟧ c)) }
{
    let gate = Windows::<L>::new(heap)?;
    let policy = Rotation::<R>::new(heap)?;
    Connection::new(heap, gate, policy)
}

// The same over a cap.
pub fn fresh_capped<L: Layout, R: Rule>(
    heap: Global,
    most: u32,
) -> Result<Connection<Cap<Windows<L>>, Rotation<R>>, AllocError>
    ensures capped { IfOk result (λ c. c.gate.most ≡ most) }
    ensures reached { IfOk result (λ c. Starts (moment_of ⟦<Cap<Windows<L>> as Gate>⟧ ⟦<Rotation<R> as Policy>⟧ c)) }
{
    let gate = Cap::over(Windows::<L>::new(heap)?, most);
    let policy = Rotation::<R>::new(heap)?;
    Connection::new(heap, gate, policy)
}

#[cfg(test)]
mod tests;
