// Whose turn it is after each call: the call, the listed ids, and the answers of turns and of ordered.
use crate::steps::*;
use std::test::Fail;

#[test]
fn one_id_in(rt: HostRuntime) -> Result<(), Fail> {
    run(
        &rt,
        rt.alloc(),
        &[
            (Call::None, &[], None, None),
            (Call::None, &[5], None, None),
            (Call::None, &[1, 3, 5], None, None),
            (Call::Enter(5, U3), &[], None, None),
            (Call::None, &[5], Some(5), Some(5)),
            (Call::None, &[5, 5, 5], Some(5), Some(5)),
            (Call::None, &[1], None, None),
            (Call::None, &[1, 5, 3], Some(5), Some(5)),
            (Call::None, &[4_294_967_295, 0, 5], Some(5), Some(5)),
            (Call::Served(5, 0), &[5], Some(5), Some(5)),
            (Call::None, &[4], None, None),
            (Call::Leave(5), &[5], None, None),
        ],
    )
}

#[test]
fn smaller_id_of_those_never_served(rt: HostRuntime) -> Result<(), Fail> {
    run(
        &rt,
        rt.alloc(),
        &[
            (Call::Enter(7, U3), &[7], Some(7), Some(7)),
            (Call::Enter(3, U3), &[7, 3], Some(3), Some(3)),
            (Call::Enter(5, U3), &[7, 5, 3], Some(3), Some(3)),
            (Call::None, &[7, 5], Some(5), Some(5)),
            (Call::None, &[5, 7], Some(5), Some(5)),
            (Call::None, &[9, 7, 1], Some(7), Some(7)),
            (Call::None, &[7, 5, 7, 5], Some(5), Some(5)),
        ],
    )
}

#[test]
fn least_urgency(rt: HostRuntime) -> Result<(), Fail> {
    run(
        &rt,
        rt.alloc(),
        &[
            (Call::Enter(1, U4), &[1], Some(1), Some(1)),
            (Call::Enter(3, U2), &[1, 3], Some(3), Some(3)),
            (Call::Enter(5, U2_INCREMENTAL), &[1, 5], Some(5), Some(5)),
            (Call::Enter(7, U0), &[1, 3, 5, 7], Some(7), Some(7)),
            (Call::None, &[5, 3, 1], Some(3), Some(3)),
            (Call::None, &[1, 5, 1], Some(5), Some(5)),
            (Call::Enter(9, U7), &[9, 1], Some(1), Some(1)),
            (Call::None, &[9], Some(9), Some(9)),
            (Call::None, &[9, 11], Some(9), Some(9)),
            (Call::Leave(7), &[7, 5, 1], Some(5), Some(5)),
        ],
    )
}

#[test]
fn urgency_before_turns(rt: HostRuntime) -> Result<(), Fail> {
    run(
        &rt,
        rt.alloc(),
        &[
            (Call::Enter(1, U2), &[1], Some(1), Some(1)),
            (Call::Enter(3, U3), &[3, 1], Some(1), Some(1)),
            (Call::Served(1, 1), &[3, 1], Some(1), Some(1)),
            (Call::Served(1, 4_294_967_295), &[3, 1], Some(1), Some(1)),
            (Call::Enter(5, U2), &[3, 5], Some(5), Some(5)),
            (Call::None, &[1, 3, 5], Some(5), Some(1)),
            (Call::Served(5, 100), &[5, 3, 1], Some(1), Some(1)),
            (Call::None, &[3], Some(3), Some(3)),
        ],
    )
}

#[test]
fn plain_ids_in_turn(rt: HostRuntime) -> Result<(), Fail> {
    run(
        &rt,
        rt.alloc(),
        &[
            (Call::Enter(1, U3), &[1], Some(1), Some(1)),
            (Call::Enter(3, U3), &[3, 1], Some(1), Some(1)),
            (Call::Enter(5, U3), &[5, 3, 1], Some(1), Some(1)),
            (Call::Served(1, 0), &[1, 3, 5], Some(3), Some(1)),
            (Call::None, &[5, 1], Some(5), Some(1)),
            (Call::None, &[5, 3], Some(3), Some(3)),
            (Call::Served(3, 1), &[1, 3, 5], Some(5), Some(1)),
            (Call::None, &[3, 1], Some(1), Some(1)),
            (Call::None, &[5, 3], Some(5), Some(3)),
            (Call::Served(5, 4_294_967_295), &[5, 3, 1], Some(1), Some(1)),
            (Call::None, &[5, 3], Some(3), Some(3)),
            (Call::Served(1, 100), &[1, 3, 5], Some(3), Some(1)),
            (Call::None, &[5, 1], Some(5), Some(1)),
        ],
    )
}

#[test]
fn incremental_ids_in_turn(rt: HostRuntime) -> Result<(), Fail> {
    run(
        &rt,
        rt.alloc(),
        &[
            (Call::Enter(5, U3_INCREMENTAL), &[5], Some(5), Some(5)),
            (Call::Enter(1, U3_INCREMENTAL), &[5, 1], Some(1), Some(1)),
            (Call::Enter(3, U3_INCREMENTAL), &[5, 3, 1], Some(1), Some(1)),
            (Call::Served(1, 0), &[1, 3, 5], Some(3), Some(3)),
            (Call::None, &[1, 5], Some(5), Some(5)),
            (Call::Served(5, 1), &[1, 3, 5], Some(3), Some(3)),
            (Call::None, &[5, 1], Some(1), Some(1)),
            (Call::Served(3, 4_294_967_295), &[5, 3, 1], Some(1), Some(1)),
            (Call::Served(1, 100), &[1, 3, 5], Some(5), Some(5)),
            (Call::None, &[1, 3], Some(3), Some(3)),
            (Call::Served(5, 0), &[1, 3, 5], Some(3), Some(3)),
            (Call::Served(3, 1), &[5, 3, 1], Some(1), Some(1)),
        ],
    )
}

#[test]
fn plain_and_incremental_ids(rt: HostRuntime) -> Result<(), Fail> {
    run(
        &rt,
        rt.alloc(),
        &[
            (Call::Enter(1, U3_INCREMENTAL), &[1], Some(1), Some(1)),
            (Call::Enter(3, U3), &[1, 3], Some(1), Some(3)),
            (Call::Enter(5, U3_INCREMENTAL), &[5, 3], Some(3), Some(3)),
            (Call::Enter(7, U3), &[5, 7], Some(5), Some(7)),
            (Call::None, &[1, 3, 5, 7], Some(1), Some(3)),
            (Call::None, &[5, 1], Some(1), Some(1)),
            (Call::None, &[7, 3], Some(3), Some(3)),
            (
                Call::Served(1, 4_294_967_295),
                &[1, 3, 5, 7],
                Some(3),
                Some(3),
            ),
            (Call::None, &[1, 5], Some(5), Some(5)),
            (Call::Served(3, 100), &[1, 3, 5, 7], Some(5), Some(3)),
            (Call::None, &[3, 1], Some(1), Some(3)),
            (Call::None, &[1, 7], Some(7), Some(7)),
            (Call::Served(5, 0), &[5, 3, 1], Some(1), Some(3)),
            (Call::Served(7, 1), &[1, 5], Some(1), Some(1)),
        ],
    )
}

#[test]
fn entered_again(rt: HostRuntime) -> Result<(), Fail> {
    run(
        &rt,
        rt.alloc(),
        &[
            (Call::Enter(1, U3_INCREMENTAL), &[1], Some(1), Some(1)),
            (Call::Enter(3, U3_INCREMENTAL), &[1, 3], Some(1), Some(1)),
            (Call::Served(1, 4_294_967_295), &[1, 3], Some(3), Some(3)),
            (Call::Served(3, 100), &[1, 3], Some(1), Some(1)),
            (Call::Leave(3), &[1, 3], Some(1), Some(1)),
            (Call::None, &[3], None, None),
            (Call::Enter(3, U3_INCREMENTAL), &[1, 3], Some(3), Some(3)),
            (Call::Enter(5, U3_INCREMENTAL), &[1, 5], Some(5), Some(5)),
            (Call::None, &[5, 3], Some(3), Some(3)),
            (Call::Served(3, 0), &[5, 3, 1], Some(5), Some(5)),
            (Call::Served(5, 1), &[5, 3, 1], Some(1), Some(1)),
            (Call::Leave(1), &[5, 1, 3], Some(3), Some(3)),
            (Call::Enter(1, U4_INCREMENTAL), &[1, 5, 3], Some(3), Some(3)),
            (Call::None, &[1], Some(1), Some(1)),
        ],
    )
}

#[test]
fn altered_after_served(rt: HostRuntime) -> Result<(), Fail> {
    run(
        &rt,
        rt.alloc(),
        &[
            (Call::Enter(1, U3_INCREMENTAL), &[1], Some(1), Some(1)),
            (Call::Enter(3, U3_INCREMENTAL), &[1, 3], Some(1), Some(1)),
            (Call::Served(1, 4_294_967_295), &[1, 3], Some(3), Some(3)),
            (Call::Alter(1, U2_INCREMENTAL), &[1, 3], Some(1), Some(1)),
            (Call::Alter(3, U2_INCREMENTAL), &[1, 3], Some(3), Some(3)),
            (Call::Alter(1, U2), &[1, 3], Some(3), Some(1)),
            (Call::Served(3, 100), &[1, 3], Some(1), Some(1)),
            (Call::Alter(3, U2), &[3, 1], Some(1), Some(1)),
            (Call::Alter(1, U2_INCREMENTAL), &[1], Some(1), Some(1)),
            (Call::None, &[1, 3], Some(1), Some(3)),
            (Call::Alter(3, U0), &[1, 3], Some(3), Some(3)),
            (Call::Alter(3, U4), &[1, 3], Some(1), Some(1)),
        ],
    )
}

#[test]
fn served_when_not_in(rt: HostRuntime) -> Result<(), Fail> {
    run(
        &rt,
        rt.alloc(),
        &[
            (Call::Served(1, 0), &[1], None, None),
            (Call::Enter(1, U3), &[1], Some(1), Some(1)),
            (Call::Enter(3, U3), &[3, 1], Some(1), Some(1)),
            (Call::Served(9, 1), &[3, 1], Some(1), Some(1)),
            (Call::None, &[9, 3], Some(3), Some(3)),
            (Call::Enter(9, U3), &[9], Some(9), Some(9)),
            (Call::None, &[9, 1], Some(1), Some(1)),
            (Call::Served(1, 4_294_967_295), &[9, 1], Some(9), Some(1)),
            (Call::Leave(1), &[9, 1], Some(9), Some(9)),
            (Call::Served(1, 100), &[1, 9], Some(9), Some(9)),
            (Call::Enter(1, U3), &[9, 1], Some(1), Some(1)),
        ],
    )
}
