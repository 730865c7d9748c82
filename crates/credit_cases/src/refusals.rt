// Every refusal of every call, each with a look that nothing moved.
use crate::steps::*;
use std::test::*;

#[test]
fn with_no_stream(rt: HostRuntime) -> Result<(), Fail> {
    run_on_all(
        &rt,
        rt.alloc(),
        &[
            FRESH,
            FRESH.refused(Call::Begin(0)),
            FRESH.refused(Call::Finish(0)),
            FRESH.refused(Call::Finish(1)),
            FRESH.refused(Call::Finish(4_294_967_295)),
            FRESH.refused(Call::Raise(1, 0)),
            FRESH.refused(Call::Raise(1, 1)),
            FRESH.refused(Call::Raise(1, 4_294_967_295)),
            FRESH.refused(Call::Raise(0, 2_147_418_113)),
            FRESH.refused(Call::Raise(0, 4_294_967_295)),
            FRESH.refused(Call::Initial(2_147_483_648)),
            FRESH.refused(Call::Initial(4_294_967_295)),
            FRESH.refused(Call::Hold(0, 0)),
            FRESH.refused(Call::Hold(0, 1)),
            FRESH.refused(Call::Hold(1, 0)),
            FRESH.refused(Call::Hold(1, 1)),
            FRESH.refused(Call::Spend(0, 0)),
            FRESH.refused(Call::Spend(0, 1)),
            FRESH.refused(Call::Spend(1, 0)),
            FRESH.refused(Call::Spend(1, 1)),
        ],
    )
}

#[test]
fn with_one_stream(rt: HostRuntime) -> Result<(), Fail> {
    run_on_all(
        &rt,
        rt.alloc(),
        &[
            BEGUN,
            BEGUN.refused(Call::Begin(0)),
            BEGUN.refused(Call::Begin(1)),
            BEGUN.refused(Call::Finish(0)),
            BEGUN.refused(Call::Finish(2)),
            BEGUN.refused(Call::Raise(2, 0)),
            BEGUN.refused(Call::Raise(1, 2_147_418_113)),
            BEGUN.refused(Call::Raise(1, 4_294_967_295)),
            BEGUN.refused(Call::Raise(0, 2_147_418_113)),
            BEGUN.refused(Call::Raise(0, 4_294_967_295)),
            BEGUN.refused(Call::Initial(2_147_483_648)),
            BEGUN.refused(Call::Initial(4_294_967_295)),
            BEGUN.refused(Call::Hold(0, 0)),
            BEGUN.refused(Call::Hold(2, 0)),
            BEGUN.refused(Call::Hold(1, 65_536)),
            BEGUN.refused(Call::Hold(1, 4_294_967_295)),
            BEGUN.refused(Call::Spend(0, 0)),
            BEGUN.refused(Call::Spend(2, 0)),
            BEGUN.refused(Call::Spend(1, 0)),
            BEGUN.refused(Call::Spend(1, 1)),
        ],
    )
}

#[test]
fn once_finished(rt: HostRuntime) -> Result<(), Fail> {
    let finished = FRESH.accepted(Call::Finish(1));
    run_on_all(
        &rt,
        rt.alloc(),
        &[
            BEGUN,
            finished,
            finished.refused(Call::Finish(1)),
            finished.refused(Call::Raise(1, 0)),
            finished.refused(Call::Hold(1, 0)),
            finished.refused(Call::Spend(1, 0)),
            BEGUN,
            BEGUN.refused(Call::Begin(1)),
        ],
    )
}

#[test]
fn with_octets_held(rt: HostRuntime) -> Result<(), Fail> {
    let held = Step {
        call: Call::Hold(1, 10_000),
        held: Some(10_000),
        room: 55_535,
        connection_held: 10_000,
        ..BEGUN
    };
    let spent = Step {
        call: Call::Spend(1, 9_999),
        window: Some(55_536),
        room: 55_536,
        connection_window: 55_536,
        ..BEGUN
    };
    run_on_all(
        &rt,
        rt.alloc(),
        &[
            BEGUN,
            held,
            held.refused(Call::Begin(1)),
            held.refused(Call::Finish(2)),
            held.refused(Call::Raise(1, 2_147_418_113)),
            held.refused(Call::Raise(0, 2_147_418_113)),
            held.refused(Call::Initial(2_147_483_648)),
            held.refused(Call::Hold(1, 0)),
            held.refused(Call::Hold(1, 1)),
            held.refused(Call::Hold(1, 55_535)),
            held.refused(Call::Spend(2, 0)),
            held.refused(Call::Spend(1, 10_001)),
            held.refused(Call::Spend(1, 4_294_967_295)),
            spent,
            spent.refused(Call::Spend(1, 0)),
            spent.refused(Call::Spend(1, 1)),
            spent.refused(Call::Hold(1, 55_537)),
        ],
    )
}

#[test]
fn with_nothing_held_as_an_amount(rt: HostRuntime) -> Result<(), Fail> {
    let held = Step {
        call: Call::Hold(1, 0),
        held: Some(0),
        ..BEGUN
    };
    run_on_all(
        &rt,
        rt.alloc(),
        &[
            BEGUN,
            held,
            held.refused(Call::Hold(1, 0)),
            held.refused(Call::Hold(1, 1)),
            held.refused(Call::Spend(1, 1)),
            held.refused(Call::Spend(1, 4_294_967_295)),
            BEGUN.accepted(Call::Spend(1, 0)),
            BEGUN.refused(Call::Spend(1, 0)),
            held,
            FRESH.accepted(Call::Finish(1)),
        ],
    )
}

#[test]
fn with_a_short_connection(rt: HostRuntime) -> Result<(), Fail> {
    let second = Step {
        call: Call::Begin(3),
        stream: 3,
        ..BEGUN
    };
    let first_holds = Step {
        call: Call::Hold(1, 60_000),
        room: 5_535,
        connection_held: 60_000,
        ..second
    };
    let both_hold = Step {
        call: Call::Hold(3, 5_535),
        held: Some(5_535),
        room: 0,
        connection_held: 65_535,
        ..second
    };
    let third = Step {
        call: Call::Begin(5),
        stream: 5,
        held: None,
        ..both_hold
    };
    let second_spends = Step {
        call: Call::Spend(3, 5_535),
        window: Some(60_000),
        held: None,
        connection_window: 60_000,
        connection_held: 60_000,
        ..both_hold
    };
    let one_more = Step {
        call: Call::Raise(0, 1),
        room: 1,
        connection_window: 60_001,
        ..second_spends
    };
    let first_ends = Step {
        call: Call::Finish(1),
        room: 60_000,
        connection_held: 0,
        ..one_more
    };
    run_on_all(
        &rt,
        rt.alloc(),
        &[
            BEGUN,
            second,
            first_holds,
            first_holds.refused(Call::Hold(3, 5_536)),
            first_holds.refused(Call::Hold(3, 65_535)),
            both_hold,
            third,
            third.refused(Call::Hold(5, 1)),
            second_spends,
            second_spends.refused(Call::Hold(3, 1)),
            one_more,
            one_more.refused(Call::Hold(3, 2)),
            first_ends,
            first_ends.refused(Call::Hold(3, 60_001)),
        ],
    )
}

#[test]
fn with_a_short_window(rt: HostRuntime) -> Result<(), Fail> {
    let held = Step {
        call: Call::Hold(1, 10_000),
        held: Some(10_000),
        room: 55_535,
        connection_held: 10_000,
        ..BEGUN
    };
    let emptied = Step {
        call: Call::Initial(0),
        window: Some(0),
        room: 0,
        ..held
    };
    let let_go = Step {
        call: Call::Spend(1, 0),
        held: None,
        connection_held: 0,
        ..emptied
    };
    run_on_all(
        &rt,
        rt.alloc(),
        &[
            BEGUN,
            held,
            emptied,
            emptied.refused(Call::Spend(1, 1)),
            emptied.refused(Call::Spend(1, 10_000)),
            emptied.refused(Call::Spend(1, 10_001)),
            emptied.refused(Call::Hold(1, 0)),
            let_go,
            let_go.refused(Call::Hold(1, 1)),
            let_go.refused(Call::Spend(1, 0)),
        ],
    )
}

#[test]
fn with_a_full_window(rt: HostRuntime) -> Result<(), Fail> {
    let full = Step {
        call: Call::Raise(1, 2_147_418_112),
        window: Some(2_147_483_647),
        ..BEGUN
    };
    let lowered = Step {
        call: Call::Initial(65_534),
        window: Some(2_147_483_646),
        ..BEGUN
    };
    let second = Step {
        call: Call::Begin(3),
        stream: 3,
        ..BEGUN
    };
    let first_ends = second.accepted(Call::Finish(1));
    let one_more = Step {
        call: Call::Initial(65_536),
        window: Some(65_536),
        ..second
    };
    run_on_all(
        &rt,
        rt.alloc(),
        &[
            BEGUN,
            full,
            full.refused(Call::Initial(65_536)),
            full.refused(Call::Initial(2_147_483_647)),
            full.accepted(Call::Initial(65_535)),
            lowered,
            lowered.refused(Call::Initial(65_536)),
            full.accepted(Call::Initial(65_535)),
            second,
            second.refused(Call::Initial(65_536)),
            first_ends,
            one_more,
        ],
    )
}
