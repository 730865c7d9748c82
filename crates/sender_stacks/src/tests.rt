// A fresh connection over each stack, and its first calls, through the bounds that it is written over.
use crate::{fresh_capped, fresh_connection};
use credit::Gate;
use model::Done;
use rotation::rules::{InTurn, PlainFirst};
use schedule::Policy;
use sender::{Connection, ConnectionReading, StreamReading};
use std::process::Abort;
use std::test::Fail;
use windows::gates::{Direct, Offset};
use wire::{Cause, Fault, Priority, Urgency};

const FRESH: ConnectionReading = ConnectionReading {
    window: 65_535,
    held: 0,
    left: 65_535,
    initial_window: 65_535,
    frame_size: 16_384,
    live: true,
    highest: 0,
    given: 0,
};

// Stream 1 is opened, and the whole of its response is offered.
fn check_opened<G: Gate, P: Policy>(rt: &impl Abort, connection: &mut Connection<G, P>) {
    let opened = Done::Opened {
        id: 1,
        priority: Priority {
            urgency: Urgency::U1,
            incremental: true,
        },
    };
    assert_eq!(rt; connection.open(1, b"u=1, i"), Ok(opened));
    let offered = Done::Offered {
        id: 1,
        octets: 300,
        end: true,
    };
    assert_eq!(rt; connection.offer(1, 300, true), Ok(offered));
}

// An increment of 10 for stream 1 is accepted.
fn check_raised<G: Gate, P: Policy>(rt: &impl Abort, connection: &mut Connection<G, P>, room: u32) {
    let raised = Done::Frame {
        kind: 8,
        stream: 1,
        accepted: true,
    };
    assert_eq!(rt;
        connection.frame(b"\0\0\x04\x08\0\0\0\0\x01\0\0\0\x0a"),
        Ok(raised)
    );
    let stream = StreamReading {
        window: 65_545,
        held: 0,
        left: 65_545,
        room,
    };
    assert_eq!(rt; connection.stream(1), stream);
}

// An increment for idle stream 3 ends the connection.
fn check_ended<G: Gate, P: Policy>(rt: &impl Abort, connection: &mut Connection<G, P>) {
    let idle = Fault::new(Cause::Protocol, 0, 5);
    assert_eq!(rt;
        connection.frame(b"\0\0\x04\x08\0\0\0\0\x03\0\0\0\x0a"),
        Err(idle)
    );
    let ended = Fault::new(Cause::Ended, 0, 0);
    assert_eq!(rt; connection.open(3, b""), Err(ended));
    let last = ConnectionReading {
        live: false,
        highest: 1,
        ..FRESH
    };
    assert_eq!(rt; connection.reading(), last);
}

// A connection from its making to its end, over a gate that has so much room for stream 1.
fn check_first_calls<G: Gate, P: Policy>(
    rt: &impl Abort,
    connection: &mut Connection<G, P>,
    room: u32,
) {
    assert_eq!(rt; connection.reading(), FRESH);
    check_opened(rt, connection);
    check_raised(rt, connection, room);
    check_ended(rt, connection);
}

#[test]
fn over_direct_windows(rt: HostRuntime) -> Result<(), Fail> {
    let mut connection = fresh_connection::<Direct, InTurn>(rt.alloc())?;
    check_first_calls(&rt, &mut connection, 65_535);
    Ok(())
}

#[test]
fn over_offset_windows(rt: HostRuntime) -> Result<(), Fail> {
    let mut connection = fresh_connection::<Offset, PlainFirst>(rt.alloc())?;
    check_first_calls(&rt, &mut connection, 65_535);
    Ok(())
}

#[test]
fn over_a_cap_on_direct_windows(rt: HostRuntime) -> Result<(), Fail> {
    let mut connection = fresh_capped::<Direct, PlainFirst>(rt.alloc(), 1_000)?;
    check_first_calls(&rt, &mut connection, 1_000);
    Ok(())
}

#[test]
fn over_a_cap_on_offset_windows(rt: HostRuntime) -> Result<(), Fail> {
    let mut connection = fresh_capped::<Offset, InTurn>(rt.alloc(), 0)?;
    check_first_calls(&rt, &mut connection, 0);
    Ok(())
}
