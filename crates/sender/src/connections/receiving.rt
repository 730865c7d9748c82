// The peer's frames.
ghost use Rattle.std.specs.Prelude.{◌≡◌};
ghost use Rattle.sink.specs.Meaning.{Meaning};
ghost use Rattle.wire.specs.Frames.{told_frame};
ghost use Rattle.model.specs.Calls.{frame, type_of, stream_of};
ghost use Rattle.model.specs.Laws.{Steps, GoesOn};
ghost use Rattle.sender.specs.Answers.{Handles, Receives, ends_with};
ghost use Rattle.sender.specs.Connections.{moment_of};

use crate::connections::Connection;
use credit::Gate;
use model::Done;
use schedule::Policy;
use wire::{Cause, Fault, Frame, Kind, read_frame};

// A frame's type.
fn kind_of(frame: Frame) -> u8
    ensures { result ≡ type_of (told_frame frame.entry) }
{
    match frame {
        Frame::Settings(_) | Frame::SettingsAck => Kind::Settings.octet(),
        Frame::WindowUpdate { .. } => Kind::WindowUpdate.octet(),
        Frame::ResetStream { .. } => Kind::ResetStream.octet(),
        Frame::PriorityUpdate { .. } => Kind::PriorityUpdate.octet(),
        Frame::Other { kind, .. } => kind,
    }
}

// The stream of a frame's header.
fn stream_of(frame: Frame) -> u32
    ensures { result ≡ stream_of (told_frame frame.entry) }
{
    match frame {
        Frame::Settings(_) | Frame::SettingsAck | Frame::PriorityUpdate { .. } => 0,
        Frame::WindowUpdate { stream, .. } => stream,
        Frame::ResetStream { stream, .. } => stream,
        Frame::Other { stream, .. } => stream,
    }
}

// Whether an answer ends the connection: faults 3, 4 and 5 do.
fn ends_connection(answer: &Result<Done, Fault>) -> bool
    ensures { result ≡ ends_with answer.now }
{
    match answer {
        Ok(_) => false,
        Err(fault) => matches!(
            fault.cause,
            Cause::FrameSize | Cause::Protocol | Cause::FlowControl
        ),
    }
}

impl<G: Gate, P: Policy> Connection<G, P> {
    // Accepts a frame that was read, passes it over, or refuses it.
    fn handled(&mut self, frame: Frame) -> Result<bool, Fault>
        ensures { (k : Meaning) → Handles (moment_of G.Gate P.Policy self.old k) (told_frame frame.entry) result (moment_of G.Gate P.Policy self.new k) }
    {
        match frame {
            Frame::Settings(pairs) => self.settings(pairs),
            Frame::SettingsAck => Ok(true),
            Frame::WindowUpdate { stream, increment } => self.window_update(stream, increment),
            Frame::ResetStream { stream, code } => self.reset_stream(stream, code),
            Frame::PriorityUpdate {
                target,
                value,
                place,
            } => self.priority_update(target, value, place),
            Frame::Other { .. } => Ok(false),
        }
    }

    // Reads a frame and does what it tells; that a fault ends the connection is left to the caller.
    fn received(&mut self, octets: &[u8]) -> Result<Done, Fault>
        ensures { (k : Meaning) → Receives (moment_of G.Gate P.Policy self.old k) octets.now result (moment_of G.Gate P.Policy self.new k) }
    {
        let frame = read_frame(octets)?;
        let accepted = self.handled(frame)?;
        Ok(Done::Frame {
            kind: kind_of(frame),
            stream: stream_of(frame),
            accepted,
        })
    }

    // Takes a frame by the rules; what histories make of it is the public call's promise.
    fn framed(&mut self, octets: &[u8]) -> Result<Done, Fault>
        ensures { (k : Meaning) → Steps (moment_of G.Gate P.Policy self.old k) (frame octets.now) result (moment_of G.Gate P.Policy self.new k) }
    {
        self.alive()?;
        let answer = self.received(octets);
        if ends_connection(&answer) {
            self.live = false;
        }
        answer
    }

    // Takes the octets of one frame that the peer sent.
    pub fn frame(&mut self, octets: &[u8]) -> Result<Done, Fault>
        ensures { (k : Meaning) → GoesOn (moment_of G.Gate P.Policy self.old k) (frame octets.now) result (moment_of G.Gate P.Policy self.new k) }
    {
        self.framed(octets)
    }
}
