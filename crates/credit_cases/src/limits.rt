// As many streams as a gate takes.
use crate::steps::*;
use std::alloc::Global;
use std::test::*;

// The streams 1 to 64, begun on a fresh gate.
fn begun_64(heap: Global) -> Result<Vec<Step>, Fail> {
    let mut steps = Vec::new(heap);
    for id in 1..=64u32 {
        steps.push(Step {
            call: Call::Begin(id),
            stream: id,
            ..BEGUN
        })?;
    }
    Ok(steps)
}

// The streams 1 to 64, each finished when nothing is held or spent.
fn finish_64(steps: &mut Vec<Step>) -> Result<(), Fail> {
    for id in 1..=64u32 {
        steps.push(Step {
            call: Call::Finish(id),
            stream: id,
            ..FRESH
        })?;
    }
    Ok(())
}

// The streams 1 to 64, each of which holds 1,000 octets.
fn hold_64(steps: &mut Vec<Step>) -> Result<(), Fail> {
    for id in 1..=64u32 {
        let together = 1_000 * id;
        steps.push(Step {
            call: Call::Hold(id, 1_000),
            stream: id,
            held: Some(1_000),
            room: 65_535 - together,
            connection_held: together,
            ..BEGUN
        })?;
    }
    Ok(())
}

#[test]
fn at_the_limit(rt: HostRuntime) -> Result<(), Fail> {
    let mut steps = begun_64(rt.alloc())?;
    let none = Step {
        stream: 65,
        ..FRESH
    };
    let finished = Step {
        call: Call::Finish(32),
        stream: 32,
        ..FRESH
    };
    let another = Step {
        call: Call::Begin(65),
        stream: 65,
        ..BEGUN
    };
    steps.extend_from_slice(&[
        none.refused(Call::Begin(65)),
        none.refused(Call::Begin(4_294_967_295)),
        none.refused(Call::Begin(0)),
        BEGUN.refused(Call::Begin(1)),
        BEGUN.refused(Call::Begin(65)),
        finished,
        finished.refused(Call::Finish(32)),
        finished.refused(Call::Begin(31)),
        another,
        another.refused(Call::Begin(65)),
        finished.refused(Call::Begin(32)),
        finished.refused(Call::Begin(66)),
    ])?;
    run_on_all(&rt, rt.alloc(), steps.as_slice())
}

#[test]
fn begun_and_finished_twice(rt: HostRuntime) -> Result<(), Fail> {
    let mut steps = begun_64(rt.alloc())?;
    finish_64(&mut steps)?;
    steps.extend_from_slice(begun_64(rt.alloc())?.as_slice())?;
    finish_64(&mut steps)?;
    steps.extend_from_slice(&[FRESH.refused(Call::Finish(1)), BEGUN])?;
    run_on_all(&rt, rt.alloc(), steps.as_slice())
}

// One of 64 streams after a new initial window of 100, with nothing held or spent.
fn moved_to_100(stream: u32) -> Step {
    Step {
        call: Call::Raise(0, 0),
        stream,
        window: Some(100),
        room: 100,
        ..BEGUN
    }
}

#[test]
fn all_moved_alike(rt: HostRuntime) -> Result<(), Fail> {
    let mut steps = begun_64(rt.alloc())?;
    let finished = Step {
        call: Call::Finish(32),
        stream: 32,
        ..FRESH
    };
    let another = Step {
        call: Call::Begin(65),
        stream: 65,
        ..BEGUN
    };
    steps.extend_from_slice(&[
        finished,
        another,
        moved_to_100(1).accepted(Call::Initial(100)),
        moved_to_100(2),
        moved_to_100(31),
        finished.accepted(Call::Raise(0, 0)),
        moved_to_100(33),
        moved_to_100(63),
        moved_to_100(64),
        moved_to_100(65),
        finished.refused(Call::Begin(32)),
        finished.refused(Call::Raise(32, 0)),
    ])?;
    run_on_all(&rt, rt.alloc(), steps.as_slice())
}

// Of 64 streams the first spent 1,000 octets, the 33rd holds 10 and the last was raised by 500.
const UNEVEN: [Step; 4] = [
    Step {
        call: Call::Hold(1, 1_000),
        held: Some(1_000),
        room: 64_535,
        connection_held: 1_000,
        ..BEGUN
    },
    Step {
        call: Call::Spend(1, 1_000),
        window: Some(64_535),
        room: 64_535,
        connection_window: 64_535,
        ..BEGUN
    },
    Step {
        call: Call::Raise(64, 500),
        stream: 64,
        window: Some(66_035),
        room: 64_535,
        connection_window: 64_535,
        ..BEGUN
    },
    Step {
        call: Call::Hold(33, 10),
        stream: 33,
        held: Some(10),
        room: 64_525,
        connection_window: 64_535,
        connection_held: 10,
        ..BEGUN
    },
];

// The second of these streams, which the others leave at 65,535.
const SECOND: Step = Step {
    call: Call::Raise(0, 0),
    stream: 2,
    room: 64_525,
    connection_window: 64_535,
    connection_held: 10,
    ..BEGUN
};

#[test]
fn all_moved_down(rt: HostRuntime) -> Result<(), Fail> {
    let mut steps = begun_64(rt.alloc())?;
    steps.extend_from_slice(&UNEVEN)?;
    let second = Step {
        window: Some(400),
        room: 400,
        ..SECOND
    };
    let first = Step {
        stream: 1,
        window: Some(-600),
        room: 0,
        ..second
    };
    let holds = Step {
        stream: 33,
        held: Some(10),
        room: 390,
        ..second
    };
    let last = Step {
        stream: 64,
        window: Some(900),
        room: 900,
        ..second
    };
    steps.extend_from_slice(&[
        SECOND,
        first.accepted(Call::Initial(400)),
        second,
        holds,
        Step {
            stream: 63,
            ..second
        },
        last,
        last.refused(Call::Hold(64, 901)),
        holds.refused(Call::Spend(33, 11)),
        first.refused(Call::Hold(1, 1)),
    ])?;
    run_on_all(&rt, rt.alloc(), steps.as_slice())
}

#[test]
fn all_moved_up(rt: HostRuntime) -> Result<(), Fail> {
    let mut steps = begun_64(rt.alloc())?;
    steps.extend_from_slice(&UNEVEN)?;
    let last = Step {
        call: Call::Initial(2_147_483_147),
        stream: 64,
        window: Some(2_147_483_647),
        ..SECOND
    };
    let first = Step {
        stream: 1,
        window: Some(2_147_482_147),
        ..SECOND
    };
    let second = Step {
        window: Some(2_147_483_147),
        ..SECOND
    };
    let holds = Step {
        stream: 33,
        held: Some(10),
        ..second
    };
    steps.extend_from_slice(&[
        SECOND.refused(Call::Initial(2_147_483_148)),
        last,
        first,
        second,
        holds,
        last.refused(Call::Initial(2_147_483_148)),
        second.refused(Call::Initial(2_147_483_647)),
        second.accepted(Call::Finish(64)),
        Step {
            call: Call::Initial(2_147_483_148),
            window: Some(2_147_483_148),
            ..holds
        },
    ])?;
    run_on_all(&rt, rt.alloc(), steps.as_slice())
}

#[test]
fn all_holding(rt: HostRuntime) -> Result<(), Fail> {
    let mut steps = begun_64(rt.alloc())?;
    hold_64(&mut steps)?;
    let first = Step {
        call: Call::Raise(0, 0),
        held: Some(1_000),
        room: 1_535,
        connection_held: 64_000,
        ..BEGUN
    };
    let short = Step {
        call: Call::Initial(999),
        window: Some(999),
        room: 0,
        ..first
    };
    let last_spends = Step {
        call: Call::Spend(64, 999),
        stream: 64,
        window: Some(0),
        held: None,
        connection_window: 64_536,
        connection_held: 63_000,
        ..short
    };
    let first_ends = Step {
        call: Call::Finish(1),
        stream: 2,
        connection_window: 64_536,
        connection_held: 62_000,
        ..short
    };
    let another = Step {
        call: Call::Begin(65),
        stream: 65,
        held: None,
        room: 999,
        ..first_ends
    };
    steps.extend_from_slice(&[
        first,
        first.refused(Call::Hold(1, 0)),
        short,
        short.refused(Call::Spend(1, 1_000)),
        last_spends,
        last_spends.refused(Call::Hold(64, 1)),
        first_ends,
        another,
        another.refused(Call::Hold(65, 1_000)),
        Step {
            call: Call::Hold(65, 999),
            held: Some(999),
            room: 0,
            connection_held: 62_999,
            ..another
        },
    ])?;
    run_on_all(&rt, rt.alloc(), steps.as_slice())
}
