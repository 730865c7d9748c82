// One call on a gate, what the gate then tells, and how a table of them is run.
use credit::{Cap, Gate};
use std::alloc::Global;
use std::process::Abort;
use std::test::*;
use windows::{DirectWindows, OffsetWindows};

// The calls of a gate.
#[derive(Clone, Copy, PartialEq, Debug)]
pub enum Call {
    Begin(u32),
    Finish(u32),
    Raise(u32, u32),
    Initial(u32),
    Hold(u32, u32),
    Spend(u32, u32),
}

// Whether a gate accepts a call.
pub(crate) fn answer<G: Gate>(gate: &mut G, call: Call) -> bool {
    match call {
        Call::Begin(id) => gate.begin(id),
        Call::Finish(id) => gate.finish(id),
        Call::Raise(id, v) => gate.raise(id, v),
        Call::Initial(v) => gate.initial(v),
        Call::Hold(id, n) => gate.hold(id, n),
        Call::Spend(id, n) => gate.spend(id, n),
    }
}

// What all questions tell of a connection and of one stream.
#[derive(Clone, Copy, PartialEq, Debug)]
pub struct State {
    pub window: Option<i32>,
    pub held: Option<u32>,
    pub room: u32,
    pub initial_window: u32,
    pub connection_window: u32,
    pub connection_held: u32,
    pub begun: u32,
    pub limit: u32,
}

pub(crate) fn told<G: Gate>(gate: &G, stream: u32) -> State {
    State {
        window: gate.window(stream),
        held: gate.held(stream),
        room: gate.room(stream),
        initial_window: gate.initial_window(),
        connection_window: gate.connection_window(),
        connection_held: gate.connection_held(),
        begun: gate.begun(),
        limit: gate.limit(),
    }
}

// A call, whether it is accepted, and what then stands of one stream and of the connection.
#[derive(Clone, Copy, PartialEq, Debug)]
pub struct Step {
    pub call: Call,
    pub accepted: bool,
    pub stream: u32,
    pub window: Option<i32>,
    pub held: Option<u32>,
    pub room: u32,
    pub connection_window: u32,
    pub connection_held: u32,
}

impl Step {
    // A call that is refused after this one, so that nothing moves.
    pub(crate) fn refused(self, call: Call) -> Step {
        Step {
            call,
            accepted: false,
            ..self
        }
    }

    // A call that is accepted after this one and moves nothing that is looked at.
    pub(crate) fn accepted(self, call: Call) -> Step {
        Step {
            call,
            accepted: true,
            ..self
        }
    }
}

// A fresh gate, looked at by an increment of nothing.
pub const FRESH: Step = Step {
    call: Call::Raise(0, 0),
    accepted: true,
    stream: 1,
    window: None,
    held: None,
    room: 0,
    connection_window: 65_535,
    connection_held: 0,
};

// The first stream of a fresh gate.
pub const BEGUN: Step = Step {
    call: Call::Begin(1),
    window: Some(65_535),
    room: 65_535,
    ..FRESH
};

// The initial window and the number of streams after an accepted call.
fn settled(before: State, call: Call) -> (u32, u32) {
    match call {
        Call::Begin(_) => (before.initial_window, before.begun.saturating_add(1)),
        Call::Finish(_) => (before.initial_window, before.begun.saturating_sub(1)),
        Call::Initial(v) => (v, before.begun),
        _ => (before.initial_window, before.begun),
    }
}

// What is to stand after a step.
fn expected(before: State, step: Step) -> State {
    let (initial_window, begun) = if step.accepted {
        settled(before, step.call)
    } else {
        (before.initial_window, before.begun)
    };
    State {
        window: step.window,
        held: step.held,
        room: step.room,
        initial_window,
        connection_window: step.connection_window,
        connection_held: step.connection_held,
        begun,
        limit: 64,
    }
}

pub(crate) fn run_step<G: Gate>(
    rt: &impl Abort,
    gate: &mut G,
    step: Step,
    on: &str,
) -> Result<(), Fail> {
    let before = told(gate, step.stream);
    let wanted = step.accepted;
    assert_eq!(rt; answer(gate, step.call), wanted, "{on}: {step:?}");
    let after = told(gate, step.stream);
    assert_eq!(rt; after, expected(before, step), "{on}: {step:?}");
    assert!(rt; step.accepted || after == before, "{on}: {step:?}");
    Ok(())
}

// Runs the steps in order.
pub(crate) fn run<G: Gate>(
    rt: &impl Abort,
    gate: &mut G,
    steps: &[Step],
    on: &str,
) -> Result<(), Fail> {
    for step in steps {
        run_step(rt, gate, *step, on)?;
    }
    Ok(())
}

// Runs the steps on a fresh gate of each kind under a cap.
pub(crate) fn run_capped(
    rt: &impl Abort,
    heap: Global,
    most: u32,
    steps: &[Step],
) -> Result<(), Fail> {
    let mut direct = Cap::over(DirectWindows::new(heap)?, most);
    run(rt, &mut direct, steps, "on a cap over direct windows")?;
    let mut offset = Cap::over(OffsetWindows::new(heap)?, most);
    run(rt, &mut offset, steps, "on a cap over offset windows")
}

// Runs the steps on a fresh gate of each kind under two caps.
pub(crate) fn run_capped_twice(
    rt: &impl Abort,
    heap: Global,
    inner: u32,
    outer: u32,
    steps: &[Step],
) -> Result<(), Fail> {
    let mut direct = Cap::over(Cap::over(DirectWindows::new(heap)?, inner), outer);
    run(rt, &mut direct, steps, "on two caps over direct windows")?;
    let mut offset = Cap::over(Cap::over(OffsetWindows::new(heap)?, inner), outer);
    run(rt, &mut offset, steps, "on two caps over offset windows")
}

// Runs the steps on a fresh gate of each kind, bare and under caps that no room reaches.
pub(crate) fn run_on_all(rt: &impl Abort, heap: Global, steps: &[Step]) -> Result<(), Fail> {
    let mut direct = DirectWindows::new(heap)?;
    run(rt, &mut direct, steps, "on direct windows")?;
    let mut offset = OffsetWindows::new(heap)?;
    run(rt, &mut offset, steps, "on offset windows")?;
    run_capped(rt, heap, 4_294_967_295, steps)?;
    run_capped_twice(rt, heap, 4_294_967_295, 2_147_483_647, steps)
}
