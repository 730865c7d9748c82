// A cap over any gate: no stream has more room than a fixed number.
ghost use Rattle.std.specs.Prelude.{◌≡◌, min};
ghost use Rattle.std.proofs.Common.{rules};

use crate::gates::Gate;

// The gate below, and the most room that a stream has.
#[derive(Drop)]
pub struct Cap<G> {
    below: G,
    most: u32,
}

impl<G: Gate> Cap<G> {
    // A cap over a gate.
    pub fn over(below: G, most: u32) -> Cap<G>
        ensures { result ≡ record { below = below; most = most } }
    {
        Cap { below, most }
    }
}

// All but what the cap limits is handed on call by call, for which the language has no shorter form.
impl<G: Gate> Gate for Cap<G> {
    ghost meaning = { λ s. G.Gate.meaning s.below };

    ghost free = { λ s id. min (G.Gate.free s.below id) s.most };

    ghost moved = { λ s call t. G.Gate.moved s.below call t.below × (t.most ≡ s.most) };

    ghost sound = { Prim.search rules };

    ghost roomy = { Prim.search rules };

    ghost means = { λ s call t m. G.Gate.means s.below call t.below m.0 };

    fn begin(&mut self, id: u32) -> bool {
        self.below.begin(id)
    }

    fn finish(&mut self, id: u32) -> bool {
        self.below.finish(id)
    }

    fn raise(&mut self, id: u32, v: u32) -> bool {
        self.below.raise(id, v)
    }

    fn initial(&mut self, v: u32) -> bool {
        self.below.initial(v)
    }

    fn hold(&mut self, id: u32, n: u32) -> bool {
        if n > self.most {
            return false;
        }
        self.below.hold(id, n)
    }

    fn spend(&mut self, id: u32, n: u32) -> bool {
        self.below.spend(id, n)
    }

    fn room(&self, id: u32) -> u32 {
        self.below.room(id).min(self.most)
    }

    fn window(&self, id: u32) -> Option<i32> {
        self.below.window(id)
    }

    fn held(&self, id: u32) -> Option<u32> {
        self.below.held(id)
    }

    fn initial_window(&self) -> u32 {
        self.below.initial_window()
    }

    fn connection_window(&self) -> u32 {
        self.below.connection_window()
    }

    fn connection_held(&self) -> u32 {
        self.below.connection_held()
    }

    fn begun(&self) -> u32 {
        self.below.begun()
    }

    fn limit(&self) -> u32 {
        self.below.limit()
    }
}
