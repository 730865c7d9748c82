// The counting sink: frames are counted, and nothing is kept of them.
ghost use Rattle.std.specs.Prelude.{◌≡◌};

use crate::tallied_sinks::{Backing, Tallied};

// A sink over a given space alone.
pub type CountingSink = Tallied<u32>;

// A bare space, behind which frames are dropped.
impl Backing for u32 {
    ghost limit = { λ s. s };

    ghost wrote = { λ s at id end payload t. t ≡ s };

    fn limit(&self) -> u32 {
        *self
    }

    fn write(&mut self, _at: u32, _id: u32, _end: bool, _payload: &[u8]) {}
}
