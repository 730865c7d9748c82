// What a sink is: where DATA frames go.
ghost use Rattle.std.specs.Prelude.{◌≡◌, ℕ, ◌^◌, ◌<◌, Bool, List};
ghost use Rattle.sink.specs.Meaning.{Meaning, whole};
ghost use Rattle.sink.specs.Puts.{Did, DidPair};

use crate::tallies::Latest;

// Why a sink refuses a frame.
#[derive(Clone, Copy, PartialEq, Eq, Debug)]
pub enum Refusal {
    // The frame exceeds the space that is left.
    Full,
}

// A sink takes frames while its space lasts; a refusal or a question alters nothing.
pub trait Sink {
    ghost meaning: { Self → Meaning };

    // what taking a frame did to the sink in full
    ghost took: { Self → ℕ → Bool → List ℕ → Self → Type 0 };

    // Takes a DATA frame of a stream, with END_STREAM or not; what it is made of comes apart, as callers have it.
    fn put(&mut self, id: u32, end: bool, payload: &[u8]) -> Result<(), Refusal>
        ensures { Did meaning took id end payload.now self.old result self.new };

    // How many frames were taken.
    fn frames(&self) -> u64
        ensures { result ≡ (meaning self.now).frames };

    // How many payload octets were taken.
    fn octets(&self) -> u64
        ensures { result ≡ (meaning self.now).octets };

    // The latest frame; none at first.
    fn latest(&self) -> Option<Latest>
        ensures { result ≡ (meaning self.now).latest };

    // The octets that frames can still take, headers counted.
    fn space(&self) -> u64
        ensures { result ≡ (meaning self.now).space };

    // what was taken and what is left never pass 64 bits together
    ghost bounded: { (s : Self) → whole (meaning s) < 2 ^ 64 };
}

// Puts two frames of a stream, the second with END_STREAM; the second is not put where the first is refused.
pub fn put_pair<S: Sink>(sink: &mut S, id: u32, first: &[u8], second: &[u8]) -> Result<(), Refusal>
    ensures does { DidPair S.Sink.meaning S.Sink.took id first.now second.now sink.old result sink.new }
{
    sink.put(id, false, first)?;
    sink.put(id, true, second)
}
