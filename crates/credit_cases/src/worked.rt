// Windows that are worked out step by step.
use crate::steps::*;
use std::test::*;

// Of a first stream's 65,535 octets 60,000 are held and spent, and then the initial window falls.
const MOST_HELD: Step = Step {
    call: Call::Hold(1, 60_000),
    held: Some(60_000),
    room: 5_535,
    connection_held: 60_000,
    ..BEGUN
};

const MOST_SPENT: Step = Step {
    call: Call::Spend(1, 60_000),
    window: Some(5_535),
    room: 5_535,
    connection_window: 5_535,
    ..BEGUN
};

const BELOW: Step = Step {
    call: Call::Initial(16_384),
    window: Some(-43_616),
    room: 0,
    ..MOST_SPENT
};

// Of a first stream's 65,535 octets 10,000 are held, and then the initial window falls, so that its left is -6,000.
const HELD: Step = Step {
    call: Call::Hold(1, 10_000),
    held: Some(10_000),
    room: 55_535,
    connection_held: 10_000,
    ..BEGUN
};

const SHORT: Step = Step {
    call: Call::Initial(4_000),
    window: Some(4_000),
    room: 0,
    ..HELD
};

#[test]
fn window_below_zero(rt: HostRuntime) -> Result<(), Fail> {
    let nothing_held = Step {
        call: Call::Hold(1, 0),
        held: Some(0),
        ..BELOW
    };
    let above = Step {
        call: Call::Raise(1, 43_617),
        window: Some(1),
        room: 1,
        ..BELOW
    };
    run_on_all(
        &rt,
        rt.alloc(),
        &[
            BEGUN,
            MOST_HELD,
            MOST_SPENT,
            BELOW,
            BELOW.refused(Call::Hold(1, 1)),
            BELOW.refused(Call::Raise(1, 2_147_527_264)),
            nothing_held,
            nothing_held.refused(Call::Spend(1, 1)),
            BELOW.accepted(Call::Spend(1, 0)),
            MOST_SPENT.accepted(Call::Initial(65_535)),
            BELOW,
            above,
            above.refused(Call::Hold(1, 2)),
        ],
    )
}

#[test]
fn window_raised_from_below_zero(rt: HostRuntime) -> Result<(), Fail> {
    let empty = Step {
        call: Call::Raise(1, 43_616),
        window: Some(0),
        ..BELOW
    };
    let full = Step {
        call: Call::Raise(1, 2_147_483_647),
        window: Some(2_147_483_647),
        room: 5_535,
        ..empty
    };
    run_on_all(
        &rt,
        rt.alloc(),
        &[
            BEGUN,
            MOST_HELD,
            MOST_SPENT,
            BELOW,
            empty,
            empty.refused(Call::Hold(1, 1)),
            empty.refused(Call::Raise(1, 2_147_483_648)),
            full,
            full.refused(Call::Raise(1, 1)),
            full.refused(Call::Initial(16_385)),
        ],
    )
}

#[test]
fn window_below_what_is_held(rt: HostRuntime) -> Result<(), Fail> {
    let spent = Step {
        call: Call::Spend(1, 4_000),
        window: Some(0),
        held: None,
        connection_window: 61_535,
        connection_held: 0,
        ..SHORT
    };
    let nothing_held = Step {
        call: Call::Hold(1, 0),
        held: Some(0),
        ..spent
    };
    run_on_all(
        &rt,
        rt.alloc(),
        &[
            BEGUN,
            HELD,
            SHORT,
            SHORT.refused(Call::Spend(1, 4_001)),
            SHORT.refused(Call::Spend(1, 10_000)),
            spent,
            spent.refused(Call::Hold(1, 1)),
            nothing_held,
            nothing_held.refused(Call::Spend(1, 1)),
            spent.accepted(Call::Spend(1, 0)),
        ],
    )
}

#[test]
fn window_raised_past_what_is_held(rt: HostRuntime) -> Result<(), Fail> {
    let even = Step {
        call: Call::Raise(1, 6_000),
        window: Some(10_000),
        ..SHORT
    };
    let above = Step {
        call: Call::Raise(1, 1),
        window: Some(10_001),
        room: 1,
        ..SHORT
    };
    let spent = Step {
        call: Call::Spend(1, 10_000),
        window: Some(1),
        held: None,
        room: 1,
        connection_window: 55_535,
        connection_held: 0,
        ..above
    };
    run_on_all(
        &rt,
        rt.alloc(),
        &[
            BEGUN,
            HELD,
            SHORT,
            even,
            above,
            above.refused(Call::Spend(1, 10_001)),
            spent,
            spent.refused(Call::Hold(1, 2)),
        ],
    )
}

#[test]
fn increments_beside_a_hold(rt: HostRuntime) -> Result<(), Fail> {
    let full = Step {
        call: Call::Raise(1, 2_147_418_112),
        window: Some(2_147_483_647),
        ..HELD
    };
    let both_full = Step {
        call: Call::Raise(0, 2_147_418_112),
        room: 2_147_473_647,
        connection_window: 2_147_483_647,
        ..full
    };
    let spent = Step {
        call: Call::Spend(1, 10_000),
        window: Some(2_147_473_647),
        held: None,
        room: 2_147_473_647,
        connection_window: 2_147_473_647,
        connection_held: 0,
        ..both_full
    };
    let full_again = Step {
        call: Call::Raise(1, 10_000),
        window: Some(2_147_483_647),
        ..spent
    };
    run_on_all(
        &rt,
        rt.alloc(),
        &[
            BEGUN,
            HELD,
            HELD.refused(Call::Raise(1, 2_147_418_113)),
            full,
            full.refused(Call::Raise(1, 1)),
            full.accepted(Call::Raise(1, 0)),
            full.refused(Call::Initial(65_536)),
            full.refused(Call::Raise(0, 2_147_418_113)),
            both_full,
            both_full.refused(Call::Raise(0, 1)),
            spent,
            spent.refused(Call::Raise(1, 10_001)),
            spent.refused(Call::Raise(0, 10_001)),
            full_again,
        ],
    )
}
