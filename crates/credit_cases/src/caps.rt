// Caps that bind, over both gates and over a cap.
use crate::steps::*;
use std::alloc::Global;
use std::process::Abort;
use std::test::*;

#[test]
fn cap_of_0(rt: HostRuntime) -> Result<(), Fail> {
    let begun = Step { room: 0, ..BEGUN };
    let held = Step {
        call: Call::Hold(1, 0),
        held: Some(0),
        ..begun
    };
    let raised = Step {
        call: Call::Raise(1, 1),
        window: Some(65_536),
        ..begun
    };
    let both_raised = Step {
        call: Call::Raise(0, 1),
        connection_window: 65_536,
        ..raised
    };
    let below = Step {
        call: Call::Initial(0),
        window: Some(1),
        ..both_raised
    };
    run_capped(
        &rt,
        rt.alloc(),
        0,
        &[
            FRESH,
            FRESH.refused(Call::Begin(0)),
            begun,
            begun.refused(Call::Begin(1)),
            begun.refused(Call::Hold(1, 1)),
            begun.refused(Call::Hold(1, 65_535)),
            begun.refused(Call::Hold(2, 0)),
            held,
            held.refused(Call::Hold(1, 0)),
            held.refused(Call::Spend(1, 1)),
            begun.accepted(Call::Spend(1, 0)),
            raised,
            both_raised,
            both_raised.refused(Call::Hold(1, 1)),
            below,
            below.refused(Call::Hold(1, 1)),
        ],
    )
}

#[test]
fn cap_of_1000(rt: HostRuntime) -> Result<(), Fail> {
    let begun = Step {
        room: 1_000,
        ..BEGUN
    };
    let held = Step {
        call: Call::Hold(1, 1_000),
        held: Some(1_000),
        connection_held: 1_000,
        ..begun
    };
    let spent = Step {
        call: Call::Spend(1, 1_000),
        window: Some(64_535),
        connection_window: 64_535,
        ..begun
    };
    let even = Step {
        call: Call::Initial(2_000),
        window: Some(1_000),
        ..spent
    };
    let short = Step {
        call: Call::Initial(1_999),
        window: Some(999),
        room: 999,
        ..spent
    };
    run_capped(
        &rt,
        rt.alloc(),
        1_000,
        &[
            FRESH,
            begun,
            begun.refused(Call::Hold(1, 1_001)),
            begun.refused(Call::Hold(1, 65_535)),
            begun.refused(Call::Hold(1, 65_536)),
            begun.refused(Call::Hold(1, 4_294_967_295)),
            begun.refused(Call::Spend(1, 0)),
            held,
            held.refused(Call::Hold(1, 0)),
            held.refused(Call::Hold(1, 1_000)),
            held.refused(Call::Spend(1, 1_001)),
            spent,
            spent.refused(Call::Hold(1, 1_001)),
            even,
            even.refused(Call::Hold(1, 1_001)),
            short,
            short.refused(Call::Hold(1, 1_000)),
            short.refused(Call::Hold(1, 1_001)),
        ],
    )
}

#[test]
fn cap_of_1000_at_the_edges(rt: HostRuntime) -> Result<(), Fail> {
    let begun = Step {
        room: 1_000,
        ..BEGUN
    };
    let held = Step {
        call: Call::Hold(1, 999),
        held: Some(999),
        connection_held: 999,
        ..begun
    };
    let short = Step {
        call: Call::Initial(998),
        window: Some(998),
        room: 0,
        ..held
    };
    let spent = Step {
        call: Call::Spend(1, 998),
        window: Some(0),
        held: None,
        connection_window: 64_537,
        connection_held: 0,
        ..short
    };
    let below = Step {
        call: Call::Initial(0),
        window: Some(-998),
        ..spent
    };
    let full = Step {
        call: Call::Raise(1, 2_147_484_645),
        window: Some(2_147_483_647),
        room: 1_000,
        ..below
    };
    run_capped(
        &rt,
        rt.alloc(),
        1_000,
        &[
            begun,
            held,
            short,
            short.refused(Call::Spend(1, 999)),
            spent,
            below,
            below.refused(Call::Hold(1, 1)),
            below.refused(Call::Raise(1, 2_147_484_646)),
            full,
            full.refused(Call::Raise(1, 1)),
            full.refused(Call::Initial(1)),
            full.refused(Call::Hold(1, 1_001)),
        ],
    )
}

#[test]
fn cap_beside_a_short_connection(rt: HostRuntime) -> Result<(), Fail> {
    let first = Step {
        room: 40_000,
        ..BEGUN
    };
    let first_holds = Step {
        call: Call::Hold(1, 40_000),
        held: Some(40_000),
        room: 25_535,
        connection_held: 40_000,
        ..BEGUN
    };
    let second = Step {
        call: Call::Begin(3),
        stream: 3,
        held: None,
        ..first_holds
    };
    let second_holds = Step {
        call: Call::Hold(3, 25_535),
        held: Some(25_535),
        room: 0,
        connection_held: 65_535,
        ..second
    };
    let first_ends = Step {
        call: Call::Finish(1),
        room: 40_000,
        connection_held: 25_535,
        ..second_holds
    };
    run_capped(
        &rt,
        rt.alloc(),
        40_000,
        &[
            first,
            first.refused(Call::Hold(1, 40_001)),
            first_holds,
            second,
            second.refused(Call::Hold(3, 25_536)),
            second.refused(Call::Hold(3, 40_000)),
            second_holds,
            first_ends,
        ],
    )
}

// One stream under two caps, the lower of 300.
const UNDER_300: Step = Step { room: 300, ..BEGUN };

fn check_300(rt: &impl Abort, heap: Global, inner: u32, outer: u32) -> Result<(), Fail> {
    let held = Step {
        call: Call::Hold(1, 300),
        held: Some(300),
        connection_held: 300,
        ..UNDER_300
    };
    let spent = Step {
        call: Call::Spend(1, 299),
        window: Some(65_236),
        connection_window: 65_236,
        ..UNDER_300
    };
    let short = Step {
        call: Call::Initial(598),
        window: Some(299),
        room: 299,
        ..spent
    };
    run_capped_twice(
        rt,
        heap,
        inner,
        outer,
        &[
            UNDER_300,
            UNDER_300.refused(Call::Hold(1, 301)),
            UNDER_300.refused(Call::Hold(1, 1_000)),
            UNDER_300.refused(Call::Hold(1, 1_001)),
            held,
            held.refused(Call::Hold(1, 0)),
            held.refused(Call::Spend(1, 301)),
            spent,
            short,
            short.refused(Call::Hold(1, 300)),
        ],
    )
}

#[test]
fn cap_over_a_wider_cap(rt: HostRuntime) -> Result<(), Fail> {
    check_300(&rt, rt.alloc(), 1_000, 300)
}

#[test]
fn cap_over_a_narrower_cap(rt: HostRuntime) -> Result<(), Fail> {
    check_300(&rt, rt.alloc(), 300, 1_000)
}

#[test]
fn cap_over_an_equal_cap(rt: HostRuntime) -> Result<(), Fail> {
    check_300(&rt, rt.alloc(), 300, 300)
}
