// Frames read: what the octets of one frame say, or the fault that refuses them.
ghost use Rattle.std.specs.Prelude.{◌≡◌, ◌+◌, ◌<◌, length, take, drop};
ghost use Rattle.wire.specs.Frames.{told, frame_of, settings_frame, number_payload, window_update_frame, reset_stream_frame, priority_update_frame, frame_end};

use crate::Fault;
use crate::headers::{Whole, read_header};
use crate::kinds::Kind;
use crate::numbers::{number, without_top_bit};
use crate::settings::Pairs;

// A frame as it was read; a part that a case borrows lies in the frame's own octets, from its place on.
#[derive(Clone, Copy)]
pub enum Frame<'a> {
    Settings(Pairs<'a>),
    SettingsAck,
    WindowUpdate {
        stream: u32,
        increment: u32,
    },
    ResetStream {
        stream: u32,
        code: u32,
    },
    PriorityUpdate {
        target: u32,
        value: &'a [u8],
        place: u32,
    },
    Other {
        kind: u8,
        stream: u32,
    },
}

// The longest payload of a frame that is read, which a peer that was told nothing else keeps to.
const LONGEST: u32 = 16_384;

// The flag of a SETTINGS frame that acknowledges ours.
const ACK: u8 = 0x1;

// Reads exactly one frame.
pub fn read_frame<'a>(octets: &'a [u8]) -> Result<Frame<'a>, Fault>
    ensures { told result ≡ frame_of octets.now }
{
    let whole = read_header(octets)?;
    let header = whole.header;
    if header.length > LONGEST {
        return Err(Fault::frame_size());
    }
    match Kind::try_from(header.kind) {
        Ok(Kind::ResetStream) => read_reset_stream(whole),
        Ok(Kind::Settings) => read_settings(whole),
        Ok(Kind::WindowUpdate) => read_window_update(whole),
        Ok(Kind::PriorityUpdate) => read_priority_update(whole),
        Ok(Kind::Data) | Err(_) => Ok(Frame::Other {
            kind: header.kind,
            stream: header.stream,
        }),
    }
}

fn read_settings<'a>(whole: Whole<'a>) -> Result<Frame<'a>, Fault>
    ensures { told result ≡ settings_frame whole.entry.header whole.entry.octets.now }
{
    let header = whole.header;
    if header.stream != 0 {
        return Err(Fault::protocol(5));
    }
    if header.flags & ACK != 0 {
        if header.length != 0 {
            return Err(Fault::frame_size());
        }
        return Ok(Frame::SettingsAck);
    }
    if header.length % 6 != 0 {
        return Err(Fault::frame_size());
    }
    Ok(Frame::Settings(Pairs {
        octets: &whole.octets[9..],
        place: 9,
    }))
}

// The number that a payload of four octets writes.
fn read_number(whole: Whole) -> Result<u32, Fault>
    ensures { result ≡ number_payload whole.entry.header whole.entry.octets.now }
{
    if whole.header.length != 4 {
        return Err(Fault::frame_size());
    }
    Ok(number(&whole.octets[9..13]))
}

fn read_window_update<'a>(whole: Whole<'a>) -> Result<Frame<'a>, Fault>
    ensures { told result ≡ window_update_frame whole.entry.header whole.entry.octets.now }
{
    Ok(Frame::WindowUpdate {
        stream: whole.header.stream,
        increment: without_top_bit(read_number(whole)?),
    })
}

fn read_reset_stream<'a>(whole: Whole<'a>) -> Result<Frame<'a>, Fault>
    ensures { told result ≡ reset_stream_frame whole.entry.header whole.entry.octets.now }
{
    Ok(Frame::ResetStream {
        stream: whole.header.stream,
        code: read_number(whole)?,
    })
}

// Where LLVM is left to choose whether to inline this, some frames take up to half as many instructions more.
#[inline(always)]
fn read_priority_update<'a>(whole: Whole<'a>) -> Result<Frame<'a>, Fault>
    ensures { told result ≡ priority_update_frame whole.entry.header whole.entry.octets.now }
{
    if whole.header.stream != 0 {
        return Err(Fault::protocol(5));
    }
    if whole.header.length < 4 {
        return Err(Fault::frame_size());
    }
    Ok(Frame::PriorityUpdate {
        target: without_top_bit(number(&whole.octets[9..13])),
        value: &whole.octets[13..],
        place: 13,
    })
}

// Splits off the first frame, by its own length; where the octets stop inside a frame, all of them.
pub fn split_frame<'a>(octets: &'a [u8]) -> (&'a [u8], &'a [u8])
    ensures front { result.0.now ≡ take (frame_end octets.now) octets.now }
    ensures back { result.1.now ≡ drop (frame_end octets.now) octets.now }
    ensures len { length result.0.now + length result.1.now ≡ length octets.now }
    ensures some { 0 < length octets.now → 0 < length result.0.now }
{
    if octets.len() < 9 {
        return octets.split_at(octets.len());
    }
    let end = 9 + number(&octets[0..3]) as usize;
    octets.split_at(end.min(octets.len()))
}
