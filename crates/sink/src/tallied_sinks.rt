// A sink over anything with a limit: what is taken is tallied, and each frame handed on.
ghost use Rattle.std.specs.Prelude.{◌≡◌, ℕ, ◌+◌, ◌<◌, ◌≤◌, Bool, List, length};
ghost use Rattle.std.proofs.Common.{arith};
ghost use Rattle.sink.specs.Meaning.{fresh, taken, whole};
ghost use Rattle.sink.specs.Tallies.{used_by, meaning_of};

use crate::sinks::{Refusal, Sink};
use crate::tallies::{Latest, Tally};

// What stands behind a sink: how much it takes, and what it does with a frame.
pub trait Backing {
    // the octets of frames that it takes in all
    ghost limit: { Self → ℕ };

    // what writing a frame from an octet on did to it in full
    ghost wrote: { Self → ℕ → ℕ → Bool → List ℕ → Self → Type 0 };

    // The octets of frames that it takes in all.
    fn limit(&self) -> u32
        ensures { result ≡ limit self.now };

    // Writes a DATA frame from an octet on, where it keeps frames at all; one that ends behind the limit is not written.
    fn write(&mut self, at: u32, id: u32, end: bool, payload: &[u8])
        ensures writes { at + (9 + length payload.now) ≤ limit self.old → wrote self.old at id end payload.now self.new }
        ensures stays { limit self.old < at + (9 + length payload.now) → self.new ≡ self.old }
        ensures limit { limit self.new ≡ limit self.old };
}

// What stands behind the sink, and what was taken of its limit.
#[derive(Drop)]
pub struct Tallied<B: Backing> {
    backing: B,
    tally: Tally,
    pub ghost adds_up: { whole (meaning_of tally) ≡ B.Backing.limit backing },
}

impl<B: Backing> Tallied<B> {
    // A sink that has taken nothing.
    pub fn new(backing: B) -> Tallied<B>
        ensures means { meaning_of result.tally ≡ fresh (B.Backing.limit backing) }
        ensures backing { result.backing ≡ backing }
    {
        Tallied {
            tally: Tally::new(backing.limit()),
            backing,
        }
    }
}

impl<B: Backing> Sink for Tallied<B> {
    ghost meaning = { λ s. meaning_of s.tally };

    ghost took = { λ s id end payload t. (meaning_of t.tally ≡ taken (meaning_of s.tally) id end (length payload)) × B.Backing.wrote s.backing (used_by s.tally) id end payload t.backing };

    fn put(&mut self, id: u32, end: bool, payload: &[u8]) -> Result<(), Refusal> {
        let at = self.tally.used();
        self.tally = self
            .tally
            .with(id, end, payload.len())
            .ok_or(Refusal::Full)?;
        self.backing.write(at, id, end, payload);
        Ok(())
    }

    fn frames(&self) -> u64 {
        u64::from(self.tally.frames)
    }

    fn octets(&self) -> u64 {
        u64::from(self.tally.octets)
    }

    fn latest(&self) -> Option<Latest> {
        self.tally.latest
    }

    fn space(&self) -> u64 {
        u64::from(self.tally.space)
    }

    ghost bounded = { λ s. Prim.omega arith };
}
