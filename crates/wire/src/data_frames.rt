// DATA frames, written and read.
ghost use Rattle.std.specs.Prelude.{◌≡◌, ◌^◌, ◌<◌, true, length, is_some, if◌then◌else◌};
ghost use Rattle.wire.specs.DataFrames.{told_data, data_of, encoded, put_at, written, ReadsBack};

use crate::Fault;
use crate::headers::{Header, Whole, header_octets, read_header};
use crate::kinds::Kind;

// A DATA frame as it was read; the payload is a part of the frame's own octets.
#[derive(Clone, Copy)]
pub struct Data<'a> {
    pub stream: u32,
    pub end: bool,
    pub payload: &'a [u8],
}

// The flag of a DATA frame that ends its stream.
const END_STREAM: u8 = 0x1;

// The longest payload that a frame's length can tell.
const LONGEST: usize = 16_777_215;

// Reads exactly one DATA frame, of any length; flags other than END_STREAM are passed over.
pub fn read_data<'a>(octets: &'a [u8]) -> Result<Data<'a>, Fault>
    ensures { told_data result ≡ data_of octets.now }
{
    let Whole { header, octets } = read_header(octets)?;
    if header.kind != Kind::Data.octet() {
        return Err(Fault::not_whole());
    }
    Ok(Data {
        stream: header.stream,
        end: header.flags & END_STREAM != 0,
        payload: &octets[9..],
    })
}

// Writes a DATA frame into the memory from `at` on, and says how many octets that were; writes nothing where they do not fit.
pub fn write_data(
    memory: &mut [u8],
    at: usize,
    stream: u32,
    end: bool,
    payload: &[u8],
) -> Option<usize>
    ensures answer { result ≡ written (length memory.old) at (length payload.now) }
    ensures memory { memory.new ≡ (if is_some result then put_at memory.old at (encoded stream end payload.now) else memory.old) }
    ensures reads_back { is_some result ≡ true → stream < 2 ^ 31 → ReadsBack memory.new at stream end payload.now }
{
    let n = payload.len();
    if n > LONGEST {
        return None;
    }
    let size = 9 + n;
    if memory.len() < size || memory.len() - size < at {
        return None;
    }
    let flags = if end { END_STREAM } else { 0 };
    let header = header_octets(Header {
        length: n as u32,
        kind: Kind::Data.octet(),
        flags,
        stream,
    });
    memory[at..at + 9].copy_from_slice(&header);
    memory[at + 9..at + size].copy_from_slice(payload);
    Some(size)
}
