// Faults, by the numbers that they are told in.
use wire::{Cause, Fault};

// A fault's number, code, stream and place.
pub type Told = (u8, u32, u32, u32);

pub const NOT_WHOLE: Told = (2, 0, 0, 0);

pub const FRAME_SIZE: Told = (3, 6, 0, 0);

pub const WRONG_STREAM: Told = (4, 1, 0, 5);

pub(crate) fn told(fault: Fault) -> Told {
    (
        fault.cause.number(),
        fault.cause.code().number(),
        fault.stream,
        fault.place,
    )
}

#[test]
fn numbers_and_codes(rt: HostRuntime) {
    let causes = [
        (Cause::Ended, 1, 0),
        (Cause::NotWhole, 2, 0),
        (Cause::FrameSize, 3, 6),
        (Cause::Protocol, 4, 1),
        (Cause::FlowControl, 5, 3),
        (Cause::NoIncrement, 6, 1),
        (Cause::WindowOverflow, 7, 3),
        (Cause::UnreadablePriority, 8, 0),
        (Cause::BadId, 9, 0),
        (Cause::Full, 10, 0),
        (Cause::NotOpen, 11, 0),
        (Cause::EndOffered, 12, 0),
        (Cause::QueueOverflow, 13, 0),
        (Cause::NoneReady, 14, 0),
        (Cause::NotGranted, 15, 0),
        (Cause::TooLong, 16, 0),
        (Cause::NoSpace, 17, 0),
        (Cause::GrantsUsedUp, 18, 0),
    ];
    for (cause, number, code) in causes {
        assert_eq!(rt; told(Fault::new(cause, 5, 9)), (number, code, 5, 9));
    }
}
