// Faults: what refuses a frame or a call, carried up by `?`.
ghost use Rattle.std.specs.Prelude.{◌≡◌};
ghost use Rattle.wire.specs.Faults.{cause_number, code_of, error_number, fault, not_whole, frame_size, protocol, unreadable_priority};

// What is refused; each cause has a number.
#[derive(Clone, Copy, PartialEq, Eq, Debug)]
pub enum Cause {
    // A call came after a fault that ended the connection.
    Ended = 1,
    // The octets are not exactly one whole frame.
    NotWhole = 2,
    // A frame's length is none that its type allows.
    FrameSize = 3,
    // A frame breaks the protocol.
    Protocol = 4,
    // A window of the connection, or an initial window, passes the largest.
    FlowControl = 5,
    // An open stream's increment is 0.
    NoIncrement = 6,
    // An increment takes an open stream's window past the largest.
    WindowOverflow = 7,
    // The priority value for an open stream is unreadable.
    UnreadablePriority = 8,
    // A stream is opened by an id that may not be next.
    BadId = 9,
    // As many streams are open as may be.
    Full = 10,
    // Octets are offered to a stream that is not open.
    NotOpen = 11,
    // Octets are offered behind a stream's end.
    EndOffered = 12,
    // A stream's queue would pass the largest.
    QueueOverflow = 13,
    // A lease finds no stream that is ready.
    NoneReady = 14,
    // A settlement names no open grant.
    NotGranted = 15,
    // A settlement has more octets than its grant, the frame size or the window allows.
    TooLong = 16,
    // A frame is due, and the sink refuses it.
    NoSpace = 17,
    // As many grants were given as there may be.
    GrantsUsedUp = 18,
}

impl Cause {
    // The cause's number, from 1 to 18.
    pub fn number(self) -> u8
        ensures { result ≡ cause_number self }
    {
        self as u8
    }

    // The error code that a peer is told of.
    pub fn code(self) -> ErrorCode
        ensures { result ≡ code_of self }
    {
        match self {
            Cause::FrameSize => ErrorCode::FrameSizeError,
            Cause::Protocol | Cause::NoIncrement => ErrorCode::ProtocolError,
            Cause::FlowControl | Cause::WindowOverflow => ErrorCode::FlowControlError,
            _ => ErrorCode::NoError,
        }
    }
}

// An error code of RFC 9113, section 7: those that a fault can have.
#[derive(Clone, Copy, PartialEq, Eq, Debug)]
pub enum ErrorCode {
    // The fault is none that a peer is told of.
    NoError = 0x0,
    // The peer broke the protocol.
    ProtocolError = 0x1,
    // The peer broke the rules of flow control.
    FlowControlError = 0x3,
    // The peer sent a frame of a wrong length.
    FrameSizeError = 0x6,
}

impl ErrorCode {
    // The number that stands for the code in a frame.
    pub fn number(self) -> u32
        ensures { result ≡ error_number self }
    {
        self as u32
    }
}

// A refusal: its cause, the stream and the place that it names; what it does not name is 0.
#[derive(Clone, Copy, PartialEq, Eq, Debug)]
pub struct Fault {
    pub cause: Cause,
    pub stream: u32,
    pub place: u32,
}

impl Fault {
    // A refusal for a cause, which names a stream and a place.
    pub fn new(cause: Cause, stream: u32, place: u32) -> Fault
        ensures { result ≡ fault cause stream place }
    {
        Fault {
            cause,
            stream,
            place,
        }
    }

    // The octets are not one whole frame.
    pub(crate) fn not_whole() -> Fault
        ensures { result ≡ not_whole }
    {
        Fault::new(Cause::NotWhole, 0, 0)
    }

    // A frame's length is none that its type may have.
    pub(crate) fn frame_size() -> Fault
        ensures { result ≡ frame_size }
    {
        Fault::new(Cause::FrameSize, 0, 0)
    }

    // A frame breaks the protocol at a place.
    pub(crate) fn protocol(place: u32) -> Fault
        ensures { result ≡ protocol place }
    {
        Fault::new(Cause::Protocol, 0, place)
    }

    // The priority value for a target is unreadable.
    pub(crate) fn unreadable_priority(target: u32) -> Fault
        ensures { result ≡ unreadable_priority target }
    {
        Fault::new(Cause::UnreadablePriority, target, 13)
    }
}
