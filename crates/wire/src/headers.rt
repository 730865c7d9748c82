// The nine octets at the front of every frame.
ghost use Rattle.std.specs.Prelude.{◌≡◌, ◌+◌, ◌^◌, ◌<◌, length, IfOk};
ghost use Rattle.std.specs.Result.{result_map_both};
ghost use Rattle.wire.specs.Frames.{header_of, header_octets};

use crate::Fault;
use crate::numbers::{number, put_number, without_top_bit};

// The header of a frame: the payload's length, the type, the flags and the stream id without its reserved bit.
#[derive(Clone, Copy)]
pub struct Header {
    pub length: u32,
    pub kind: u8,
    pub flags: u8,
    pub stream: u32,
}

// Octets that are exactly one whole frame, with its header.
#[derive(Clone, Copy)]
pub(crate) struct Whole<'a> {
    pub(crate) header: Header,
    pub(crate) octets: &'a [u8],
    // The header counts the octets behind it.
    ghost whole: { 9 + header.length ≡ length octets.now },
    // The header writes the length in three octets.
    ghost short: { header.length < 2 ^ 24 },
}

// Reads the header of octets that are exactly one whole frame, of any length.
pub(crate) fn read_header<'a>(octets: &'a [u8]) -> Result<Whole<'a>, Fault>
    ensures reads { result_map_both (λ whole. whole.header) (λ fault. fault) result ≡ header_of octets.now }
    ensures same { IfOk result (λ whole. whole.octets.now ≡ octets.now) }
{
    if octets.len() < 9 {
        return Err(Fault::not_whole());
    }
    let length = number(&octets[0..3]);
    if octets.len() != 9 + length as usize {
        return Err(Fault::not_whole());
    }
    let header = Header {
        length,
        kind: octets[3],
        flags: octets[4],
        stream: without_top_bit(number(&octets[5..9])),
    };
    Ok(Whole { header, octets })
}

// Writes a header; the reserved bit of the stream id is written as 0.
pub(crate) fn header_octets(header: Header) -> [u8; 9]
    ensures { result ≡ header_octets header }
{
    let mut octets = [0; 9];
    put_number(&mut octets[0..3], header.length);
    octets[3] = header.kind;
    octets[4] = header.flags;
    put_number(&mut octets[5..9], without_top_bit(header.stream));
    octets
}
