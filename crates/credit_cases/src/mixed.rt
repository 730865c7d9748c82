// Both gates side by side: equal answers to every call and to every question.
use crate::steps::*;
use credit::{Cap, Gate};
use std::fmt::Display;
use std::process::Abort;
use std::test::*;
use windows::{DirectWindows, OffsetWindows};

fn check_alike<A: Gate, B: Gate>(
    rt: &impl Abort,
    one: &A,
    other: &B,
    after: &impl Display,
) -> Result<(), Fail> {
    for id in [0u32, 1, 2, 3, 4, 5, 9, 2_147_483_648, 4_294_967_295] {
        assert_eq!(rt; told(one, id), told(other, id), "{after}: stream {id}");
    }
    Ok(())
}

// Each call, and whether it is accepted.
const ANSWERED: [(Call, bool); 60] = [
    (Call::Begin(1), true),
    (Call::Begin(3), true),
    (Call::Begin(1), false),
    (Call::Hold(1, 30_000), true),
    (Call::Hold(3, 40_000), false),
    (Call::Hold(3, 35_535), true),
    (Call::Raise(3, 100), true),
    (Call::Raise(0, 50_000), true),
    (Call::Spend(1, 20_000), true),
    (Call::Spend(1, 0), false),
    (Call::Initial(10_000), true),
    (Call::Spend(3, 10_101), false),
    (Call::Hold(1, 1), false),
    (Call::Hold(1, 0), true),
    (Call::Begin(5), true),
    (Call::Hold(5, 10_001), false),
    (Call::Hold(5, 10_000), true),
    (Call::Spend(3, 10_100), true),
    (Call::Raise(3, 2_147_483_647), true),
    (Call::Raise(3, 1), false),
    (Call::Initial(10_001), false),
    (Call::Initial(9_999), true),
    (Call::Spend(5, 10_000), false),
    (Call::Spend(1, 1), false),
    (Call::Spend(1, 0), true),
    (Call::Raise(1, 10_002), true),
    (Call::Hold(1, 1), true),
    (Call::Finish(5), true),
    (Call::Finish(5), false),
    (Call::Begin(4_294_967_295), true),
    (Call::Hold(4_294_967_295, 9_999), true),
    (Call::Spend(4_294_967_295, 5_000), true),
    (Call::Initial(0), true),
    (Call::Spend(1, 1), false),
    (Call::Raise(1, 9_998), true),
    (Call::Raise(1, 1), true),
    (Call::Spend(1, 1), true),
    (Call::Initial(2_147_483_647), false),
    (Call::Finish(3), true),
    (Call::Initial(2_147_483_647), true),
    (Call::Raise(0, 2_147_483_647), false),
    (Call::Raise(0, 2_147_403_213), true),
    (Call::Hold(1, 2_147_483_647), true),
    (Call::Hold(4_294_967_295, 1), false),
    (Call::Initial(0), true),
    (Call::Finish(1), true),
    (Call::Begin(2), true),
    (Call::Raise(2, 7), true),
    (Call::Hold(2, 8), false),
    (Call::Hold(2, 7), true),
    (Call::Begin(0), false),
    (Call::Raise(9, 0), false),
    (Call::Initial(2_147_483_648), false),
    (Call::Raise(4_294_967_295, 4_294_967_295), false),
    (Call::Raise(4_294_967_295, 2_147_488_647), true),
    (Call::Spend(2, 3), true),
    (Call::Initial(1), false),
    (Call::Finish(4_294_967_295), true),
    (Call::Initial(1), true),
    (Call::Hold(2, 5), true),
];

// What stands of the stream 2 after these calls.
const AT_THE_END: State = State {
    window: Some(5),
    held: Some(5),
    room: 0,
    initial_window: 1,
    connection_window: 2_147_483_644,
    connection_held: 5,
    begun: 1,
    limit: 64,
};

fn check_answered<A: Gate, B: Gate>(
    rt: &impl Abort,
    one: &mut A,
    other: &mut B,
) -> Result<(), Fail> {
    for (call, accepted) in ANSWERED {
        assert_eq!(rt; answer(one, call), accepted, "{call:?}");
        assert_eq!(rt; answer(other, call), accepted, "{call:?}");
        check_alike(rt, one, other, &format_args!("{call:?}"))?;
    }
    assert_eq!(rt; told(one, 2), AT_THE_END);
    Ok(())
}

#[test]
fn alike_over_mixed_calls(rt: HostRuntime) -> Result<(), Fail> {
    let mut direct = DirectWindows::new(rt.alloc())?;
    let mut offset = OffsetWindows::new(rt.alloc())?;
    check_answered(&rt, &mut direct, &mut offset)
}

#[test]
fn alike_under_caps_that_no_room_reaches(rt: HostRuntime) -> Result<(), Fail> {
    let mut direct = Cap::over(DirectWindows::new(rt.alloc())?, 4_294_967_295);
    let mut offset = Cap::over(OffsetWindows::new(rt.alloc())?, 2_147_483_647);
    check_answered(&rt, &mut direct, &mut offset)
}

// Makes the six calls on one stream with one amount.
fn check_calls<A: Gate, B: Gate>(
    rt: &impl Abort,
    one: &mut A,
    other: &mut B,
    id: u32,
    amount: u32,
) -> Result<(), Fail> {
    for call in [
        Call::Begin(id),
        Call::Hold(id, amount),
        Call::Raise(id, amount),
        Call::Initial(amount),
        Call::Spend(id, amount),
        Call::Finish(id.wrapping_add(2)),
    ] {
        assert_eq!(rt;
            answer(one, call),
            answer(other, call),
            "amount {amount}: {call:?}"
        );
        check_alike(rt, one, other, &format_args!("amount {amount}: {call:?}"))?;
    }
    Ok(())
}

// Makes the six calls on each of a few streams with one amount.
fn check_streams<A: Gate, B: Gate>(
    rt: &impl Abort,
    one: &mut A,
    other: &mut B,
    amount: u32,
) -> Result<(), Fail> {
    for id in [1u32, 2, 3, 5, 0, 4_294_967_295] {
        check_calls(rt, one, other, id, amount)?;
    }
    Ok(())
}

fn check_amounts<A: Gate, B: Gate>(
    rt: &impl Abort,
    one: &mut A,
    other: &mut B,
) -> Result<(), Fail> {
    for amount in [
        1u32,
        0,
        1_000,
        65_535,
        65_534,
        65_536,
        16_384,
        2_147_418_112,
        0,
        2_147_483_646,
        2_147_483_647,
        2_147_483_648,
        0,
        4_294_967_294,
        4_294_967_295,
        30,
        7,
    ] {
        check_streams(rt, one, other, amount)?;
    }
    Ok(())
}

#[test]
fn alike_at_every_amount(rt: HostRuntime) -> Result<(), Fail> {
    let mut direct = DirectWindows::new(rt.alloc())?;
    let mut offset = OffsetWindows::new(rt.alloc())?;
    check_amounts(&rt, &mut direct, &mut offset)?;
    check_amounts(&rt, &mut direct, &mut offset)
}
