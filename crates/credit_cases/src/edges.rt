// Windows at 0, at 2,147,483,647 and at -2,147,483,647, and streams that end while they hold octets.
use crate::steps::*;
use std::test::*;

#[test]
fn stream_at_its_most(rt: HostRuntime) -> Result<(), Fail> {
    let one_short = Step {
        call: Call::Raise(1, 2_147_418_111),
        window: Some(2_147_483_646),
        ..BEGUN
    };
    let full = Step {
        call: Call::Raise(1, 1),
        window: Some(2_147_483_647),
        ..BEGUN
    };
    let held = Step {
        call: Call::Hold(1, 65_535),
        held: Some(65_535),
        room: 0,
        connection_held: 65_535,
        ..full
    };
    let spent = Step {
        call: Call::Spend(1, 65_535),
        window: Some(2_147_418_112),
        room: 0,
        connection_window: 0,
        ..BEGUN
    };
    let full_again = Step {
        call: Call::Raise(1, 65_535),
        window: Some(2_147_483_647),
        ..spent
    };
    run_on_all(
        &rt,
        rt.alloc(),
        &[
            BEGUN,
            one_short,
            one_short.refused(Call::Raise(1, 2)),
            full,
            full.refused(Call::Raise(1, 1)),
            full.refused(Call::Raise(1, 2_147_483_647)),
            full.refused(Call::Raise(1, 4_294_967_295)),
            full.accepted(Call::Raise(1, 0)),
            held,
            held.refused(Call::Raise(1, 1)),
            spent,
            spent.refused(Call::Raise(1, 65_536)),
            full_again,
            full_again.refused(Call::Raise(1, 1)),
            full_again.refused(Call::Hold(1, 1)),
        ],
    )
}

#[test]
fn connection_at_its_most(rt: HostRuntime) -> Result<(), Fail> {
    let one_short = Step {
        call: Call::Raise(0, 2_147_418_111),
        connection_window: 2_147_483_646,
        ..FRESH
    };
    let full = Step {
        call: Call::Raise(0, 1),
        connection_window: 2_147_483_647,
        ..FRESH
    };
    let begun = Step {
        connection_window: 2_147_483_647,
        ..BEGUN
    };
    let held = Step {
        call: Call::Hold(1, 65_535),
        held: Some(65_535),
        room: 0,
        connection_held: 65_535,
        ..begun
    };
    let spent = Step {
        call: Call::Spend(1, 65_535),
        window: Some(0),
        room: 0,
        connection_window: 2_147_418_112,
        ..BEGUN
    };
    run_on_all(
        &rt,
        rt.alloc(),
        &[
            FRESH,
            one_short,
            one_short.refused(Call::Raise(0, 2)),
            full,
            full.refused(Call::Raise(0, 1)),
            full.refused(Call::Raise(0, 4_294_967_295)),
            full.accepted(Call::Raise(0, 0)),
            full.accepted(Call::Initial(0)),
            full.accepted(Call::Initial(2_147_483_647)),
            full.accepted(Call::Initial(65_535)),
            begun,
            begun.refused(Call::Hold(1, 65_536)),
            held,
            held.refused(Call::Raise(0, 1)),
            spent,
            spent.refused(Call::Raise(0, 65_536)),
        ],
    )
}

#[test]
fn initial_window_at_its_edges(rt: HostRuntime) -> Result<(), Fail> {
    let most = FRESH.accepted(Call::Initial(2_147_483_647));
    let full = Step {
        window: Some(2_147_483_647),
        ..BEGUN
    };
    let empty = Step {
        call: Call::Initial(0),
        window: Some(0),
        room: 0,
        ..BEGUN
    };
    let one = Step {
        call: Call::Raise(1, 1),
        window: Some(1),
        room: 1,
        ..BEGUN
    };
    run_on_all(
        &rt,
        rt.alloc(),
        &[
            most,
            most.refused(Call::Initial(2_147_483_648)),
            most.refused(Call::Initial(4_294_967_295)),
            full,
            full.refused(Call::Raise(1, 1)),
            full.refused(Call::Initial(2_147_483_648)),
            empty,
            empty.refused(Call::Hold(1, 1)),
            full.accepted(Call::Initial(2_147_483_647)),
            empty,
            one,
            one.refused(Call::Initial(2_147_483_647)),
            full.accepted(Call::Initial(2_147_483_646)),
            full.refused(Call::Initial(2_147_483_647)),
            one.accepted(Call::Initial(0)),
        ],
    )
}

#[test]
fn begun_at_an_initial_window_of_0(rt: HostRuntime) -> Result<(), Fail> {
    let none = FRESH.accepted(Call::Initial(0));
    let empty = Step {
        window: Some(0),
        room: 0,
        ..BEGUN
    };
    let nothing_held = Step {
        call: Call::Hold(1, 0),
        held: Some(0),
        ..empty
    };
    let full = Step {
        call: Call::Initial(2_147_483_647),
        window: Some(2_147_483_647),
        room: 65_535,
        ..nothing_held
    };
    run_on_all(
        &rt,
        rt.alloc(),
        &[
            none,
            empty,
            empty.refused(Call::Hold(1, 1)),
            nothing_held,
            nothing_held.refused(Call::Spend(1, 1)),
            full,
            full.refused(Call::Spend(1, 1)),
            nothing_held.accepted(Call::Initial(0)),
            empty.accepted(Call::Spend(1, 0)),
        ],
    )
}

// A connection and a first stream at their most, all of it held and then spent.
const RAISED: Step = Step {
    call: Call::Raise(0, 2_147_418_112),
    connection_window: 2_147_483_647,
    ..FRESH
};

const SET: Step = Step {
    call: Call::Initial(2_147_483_647),
    ..RAISED
};

const FULL: Step = Step {
    call: Call::Begin(1),
    window: Some(2_147_483_647),
    room: 2_147_483_647,
    ..RAISED
};

const ALL_HELD: Step = Step {
    call: Call::Hold(1, 2_147_483_647),
    held: Some(2_147_483_647),
    room: 0,
    connection_held: 2_147_483_647,
    ..FULL
};

const ALL_SPENT: Step = Step {
    call: Call::Spend(1, 2_147_483_647),
    window: Some(0),
    connection_window: 0,
    ..FRESH
};

const LEAST: Step = Step {
    call: Call::Initial(0),
    window: Some(-2_147_483_647),
    ..ALL_SPENT
};

// All of it held when the initial window falls to 0, so that the stream's left is -2,147,483,647.
const LEAST_LEFT: Step = Step {
    call: Call::Initial(0),
    window: Some(0),
    ..ALL_HELD
};

#[test]
fn all_of_the_most_spent(rt: HostRuntime) -> Result<(), Fail> {
    run_on_all(
        &rt,
        rt.alloc(),
        &[
            RAISED,
            SET,
            FULL,
            FULL.refused(Call::Hold(1, 2_147_483_648)),
            FULL.refused(Call::Hold(1, 4_294_967_295)),
            ALL_HELD,
            ALL_HELD.refused(Call::Raise(0, 1)),
            ALL_HELD.refused(Call::Raise(1, 1)),
            ALL_HELD.refused(Call::Spend(1, 2_147_483_648)),
            ALL_SPENT,
            ALL_SPENT.refused(Call::Hold(1, 1)),
        ],
    )
}

#[test]
fn stream_at_its_least(rt: HostRuntime) -> Result<(), Fail> {
    let nothing_held = Step {
        call: Call::Hold(1, 0),
        held: Some(0),
        ..LEAST
    };
    run_on_all(
        &rt,
        rt.alloc(),
        &[
            RAISED,
            SET,
            FULL,
            ALL_HELD,
            ALL_SPENT,
            LEAST,
            LEAST.refused(Call::Hold(1, 1)),
            nothing_held,
            nothing_held.refused(Call::Spend(1, 1)),
            LEAST.accepted(Call::Spend(1, 0)),
            LEAST.refused(Call::Raise(1, 4_294_967_295)),
        ],
    )
}

#[test]
fn stream_from_its_least_to_its_most(rt: HostRuntime) -> Result<(), Fail> {
    let one_above = Step {
        call: Call::Initial(1),
        window: Some(-2_147_483_646),
        ..LEAST
    };
    let full = Step {
        call: Call::Raise(1, 4_294_967_294),
        window: Some(2_147_483_647),
        ..LEAST
    };
    run_on_all(
        &rt,
        rt.alloc(),
        &[
            RAISED,
            SET,
            FULL,
            ALL_HELD,
            ALL_SPENT,
            LEAST,
            one_above,
            one_above.refused(Call::Raise(1, 4_294_967_294)),
            LEAST,
            full,
            full.refused(Call::Initial(1)),
        ],
    )
}

#[test]
fn stream_raised_from_its_least(rt: HostRuntime) -> Result<(), Fail> {
    let empty = ALL_SPENT.accepted(Call::Raise(1, 2_147_483_647));
    let connection_full = Step {
        call: Call::Raise(0, 2_147_483_647),
        connection_window: 2_147_483_647,
        ..empty
    };
    let one = Step {
        call: Call::Raise(1, 1),
        window: Some(1),
        room: 1,
        ..connection_full
    };
    run_on_all(
        &rt,
        rt.alloc(),
        &[
            RAISED,
            SET,
            FULL,
            ALL_HELD,
            ALL_SPENT,
            LEAST,
            ALL_SPENT.accepted(Call::Initial(2_147_483_647)),
            LEAST,
            empty,
            empty.refused(Call::Hold(1, 1)),
            empty.refused(Call::Raise(0, 2_147_483_648)),
            connection_full,
            connection_full.refused(Call::Hold(1, 1)),
            one,
            one.refused(Call::Initial(2_147_483_647)),
            one.refused(Call::Hold(1, 2)),
        ],
    )
}

#[test]
fn left_at_its_least(rt: HostRuntime) -> Result<(), Fail> {
    let full = ALL_HELD.accepted(Call::Raise(1, 2_147_483_647));
    let one_spent = Step {
        call: Call::Spend(1, 1),
        window: Some(2_147_483_646),
        held: None,
        room: 2_147_483_646,
        connection_window: 2_147_483_646,
        connection_held: 0,
        ..full
    };
    run_on_all(
        &rt,
        rt.alloc(),
        &[
            RAISED,
            SET,
            FULL,
            ALL_HELD,
            LEAST_LEFT,
            LEAST_LEFT.refused(Call::Spend(1, 1)),
            LEAST_LEFT.refused(Call::Spend(1, 2_147_483_647)),
            LEAST_LEFT.refused(Call::Hold(1, 0)),
            LEAST_LEFT.refused(Call::Raise(1, 2_147_483_648)),
            full,
            full.refused(Call::Initial(1)),
            one_spent,
            one_spent.refused(Call::Hold(1, 2_147_483_647)),
        ],
    )
}

#[test]
fn finished_at_its_least(rt: HostRuntime) -> Result<(), Fail> {
    let finished = RAISED.accepted(Call::Finish(1));
    let begun_again = Step {
        call: Call::Begin(1),
        window: Some(0),
        ..finished
    };
    run_on_all(
        &rt,
        rt.alloc(),
        &[
            RAISED,
            SET,
            FULL,
            ALL_HELD,
            LEAST_LEFT,
            finished,
            finished.refused(Call::Raise(0, 1)),
            begun_again,
            begun_again.refused(Call::Hold(1, 1)),
            FULL.accepted(Call::Initial(2_147_483_647)),
            ALL_HELD,
        ],
    )
}

#[test]
fn finished_while_it_holds(rt: HostRuntime) -> Result<(), Fail> {
    let held = Step {
        call: Call::Hold(1, 65_535),
        held: Some(65_535),
        room: 0,
        connection_held: 65_535,
        ..BEGUN
    };
    let second = Step {
        call: Call::Begin(3),
        stream: 3,
        held: None,
        ..held
    };
    let first_ends = Step {
        call: Call::Finish(1),
        stream: 3,
        ..BEGUN
    };
    let second_holds = Step {
        call: Call::Hold(3, 65_000),
        held: Some(65_000),
        room: 535,
        connection_held: 65_000,
        ..first_ends
    };
    let first_again = Step {
        call: Call::Begin(1),
        stream: 1,
        held: None,
        ..second_holds
    };
    run_on_all(
        &rt,
        rt.alloc(),
        &[
            BEGUN,
            held,
            second,
            second.refused(Call::Hold(3, 1)),
            first_ends,
            second_holds,
            first_again,
            first_again.refused(Call::Hold(1, 536)),
            BEGUN.accepted(Call::Finish(3)),
            held,
            FRESH.accepted(Call::Finish(1)),
        ],
    )
}

#[test]
fn any_id_but_0(rt: HostRuntime) -> Result<(), Fail> {
    let even = Step {
        call: Call::Begin(2),
        stream: 2,
        ..BEGUN
    };
    let largest = Step {
        call: Call::Begin(4_294_967_295),
        stream: 4_294_967_295,
        ..BEGUN
    };
    let raised = Step {
        call: Call::Raise(4_294_967_295, 5),
        window: Some(65_540),
        ..largest
    };
    let held = Step {
        call: Call::Hold(4_294_967_295, 65_535),
        held: Some(65_535),
        room: 0,
        connection_held: 65_535,
        ..raised
    };
    let spent = Step {
        call: Call::Spend(4_294_967_295, 65_535),
        window: Some(5),
        held: None,
        connection_window: 0,
        connection_held: 0,
        ..held
    };
    let even_ends = spent.accepted(Call::Finish(2));
    let ended = Step {
        call: Call::Finish(4_294_967_295),
        window: None,
        ..spent
    };
    run_on_all(
        &rt,
        rt.alloc(),
        &[
            even,
            largest,
            largest.refused(Call::Begin(4_294_967_295)),
            largest.refused(Call::Begin(2)),
            raised,
            held,
            spent,
            even_ends,
            ended,
            ended.refused(Call::Raise(4_294_967_295, 0)),
        ],
    )
}

#[test]
fn streams_moved_apart(rt: HostRuntime) -> Result<(), Fail> {
    let held = Step {
        call: Call::Hold(1, 1_000),
        held: Some(1_000),
        room: 64_535,
        connection_held: 1_000,
        ..BEGUN
    };
    let spent = Step {
        call: Call::Spend(1, 1_000),
        window: Some(64_535),
        room: 64_535,
        connection_window: 64_535,
        ..BEGUN
    };
    let second = Step {
        call: Call::Begin(3),
        stream: 3,
        window: Some(65_535),
        ..spent
    };
    let second_raised = Step {
        call: Call::Raise(3, 100),
        window: Some(65_635),
        ..second
    };
    let first_below = Step {
        call: Call::Initial(0),
        window: Some(-1_000),
        room: 0,
        ..spent
    };
    let second_after = Step {
        call: Call::Raise(0, 0),
        window: Some(100),
        room: 100,
        ..second
    };
    let third = Step {
        call: Call::Begin(5),
        stream: 5,
        window: Some(0),
        room: 0,
        ..second
    };
    let second_full = Step {
        call: Call::Initial(2_147_483_547),
        window: Some(2_147_483_647),
        ..second
    };
    let first_above = Step {
        call: Call::Raise(0, 0),
        window: Some(2_147_482_547),
        ..spent
    };
    let third_above = Step {
        call: Call::Raise(0, 0),
        stream: 5,
        window: Some(2_147_483_547),
        ..second
    };
    run_on_all(
        &rt,
        rt.alloc(),
        &[
            BEGUN,
            held,
            spent,
            second,
            second_raised,
            first_below,
            second_after,
            third,
            third.refused(Call::Initial(2_147_483_548)),
            second_full,
            second_full.refused(Call::Initial(2_147_483_548)),
            first_above,
            third_above,
        ],
    )
}
