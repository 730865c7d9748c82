// The texts of lines, behind their index.
ghost use Rattle.std.specs.Prelude.{Some};
ghost use Rattle.recording.specs.Lines.{said, said_text, fault_text};

use crate::lines::Line;
use std::fmt;
use wire::Fault;

impl fmt::Display for Line<'_> {
    ghost output = { λ line. Some (said_text (said line)) };

    fn fmt<W: fmt::Write>(&self, f: &mut fmt::Formatter<W>) -> fmt::Result {
        match *self {
            Line::Settings(pairs) => {
                f.write_str("settings")?;
                for pair in pairs {
                    write!(f, " {}={}", pair.identifier, pair.value)?;
                }
                Ok(())
            }
            Line::SettingsAck => f.write_str("settings ack"),
            Line::Window { stream, increment } => write!(f, "window {stream} {increment}"),
            Line::Reset { stream, code } => write!(f, "reset {stream} {code}"),
            Line::Priority { target, priority } => {
                let urgency = priority.urgency.number();
                let incremental = u8::from(priority.incremental);
                write!(f, "priority {target} {urgency} {incremental}")
            }
            Line::Data {
                stream,
                length,
                end,
            } => write!(f, "data {stream} {length} {}", u8::from(end)),
            Line::Frame { kind, stream } => write!(f, "frame {kind} {stream}"),
        }
    }
}

// A fault, which stands in a line where its frame is refused.
#[derive(Clone, Copy)]
pub(crate) struct Refused(pub(crate) Fault);

impl fmt::Display for Refused {
    ghost output = { λ refused. Some (fault_text refused.0) };

    fn fmt<W: fmt::Write>(&self, f: &mut fmt::Formatter<W>) -> fmt::Result {
        let Fault {
            cause,
            stream,
            place,
        } = self.0;
        let number = cause.number();
        let code = cause.code().number();
        write!(f, "fault {number} {code} {stream} {place}")
    }
}
