// The byte sink: DATA frames are written one behind another into the caller's memory.
ghost use Rattle.std.specs.Prelude.{◌≡◌, min, length, is_ok};
ghost use Rattle.wire.specs.DataFrames.{encoded, put_at};
ghost use Rattle.sink.specs.Memory.{both_fit, after_pair};

use crate::sinks::{Refusal, put_pair};
use crate::tallied_sinks::{Backing, Tallied};
use wire::write_data;

// The most octets of the memory that are written.
const LONGEST: usize = 65_536;

// A sink over at most the first 65,536 octets of a memory.
pub type ByteSink<'a> = Tallied<&'a mut [u8]>;

impl<'a> Backing for &'a mut [u8] {
    ghost limit = { λ s. min 65536 (length s.now) };

    ghost wrote = { λ s at id end payload t. (t.now ≡ put_at s.now at (encoded id end payload)) × (t.ghost_name ≡ s.ghost_name) };

    fn limit(&self) -> u32 {
        LONGEST.min(self.len()) as u32
    }

    fn write(&mut self, at: u32, id: u32, end: bool, payload: &[u8]) {
        if at as usize + 9 + payload.len() > self.limit() as usize {
            return;
        }
        let _ = write_data(self, at as usize, id, end, payload);
    }
}

// Writes two frames of a stream into a memory through a sink, the second with END_STREAM.
pub fn write_pair(memory: &mut [u8], id: u32, first: &[u8], second: &[u8]) -> Result<(), Refusal>
    ensures answers { is_ok result ≡ both_fit memory.old first.now second.now }
    ensures memory { memory.new ≡ after_pair memory.old id first.now second.now }
{
    put_pair(&mut ByteSink::new(memory), id, first, second)
}
