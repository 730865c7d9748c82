// A transfer of credit through any gate.
ghost use Rattle.credit.specs.Transfers.{Transferred};

use crate::gates::Gate;

// Holds octets of a stream and spends them all; refused exactly where they cannot be held.
pub fn transfer<G: Gate>(gate: &mut G, id: u32, n: u32) -> bool
    ensures { Transferred G.Gate id n gate.old result gate.new }
{
    if !gate.hold(id, n) {
        return false;
    }
    gate.spend(id, n)
}
