// The lines of a listing: what a line says of a frame.
ghost use Rattle.std.specs.Prelude.{◌≡◌};
ghost use Rattle.recording.specs.Lines.{said_line, said_of};

use wire::{Fault, Frame, Kind, Pairs, Priority, read_data, read_frame, read_priority_update};

// What a line says of one frame.
#[derive(Clone, Copy)]
pub(crate) enum Line<'a> {
    Settings(Pairs<'a>),
    SettingsAck,
    Window {
        stream: u32,
        increment: u32,
    },
    Reset {
        stream: u32,
        code: u32,
    },
    Priority {
        target: u32,
        priority: Priority,
    },
    Data {
        stream: u32,
        length: usize,
        end: bool,
    },
    Frame {
        kind: u8,
        stream: u32,
    },
}

impl<'a> Line<'a> {
    // What is said of exactly one frame, or of what a recording that stops inside a frame has of it.
    pub(crate) fn of(octets: &'a [u8]) -> Result<Line<'a>, Fault>
        ensures { said_line result ≡ said_of octets.now }
    {
        match read_frame(octets)? {
            Frame::Settings(pairs) => Ok(Line::Settings(pairs)),
            Frame::SettingsAck => Ok(Line::SettingsAck),
            Frame::WindowUpdate { stream, increment } => Ok(Line::Window { stream, increment }),
            Frame::ResetStream { stream, code } => Ok(Line::Reset { stream, code }),
            Frame::PriorityUpdate { target, value, .. } => {
                let priority = read_priority_update(target, value)?;
                Ok(Line::Priority { target, priority })
            }
            Frame::Other { kind, .. } if kind == Kind::Data.octet() => {
                let data = read_data(octets)?;
                Ok(Line::Data {
                    stream: data.stream,
                    length: data.payload.len(),
                    end: data.end,
                })
            }
            Frame::Other { kind, stream } => Ok(Line::Frame { kind, stream }),
        }
    }
}
