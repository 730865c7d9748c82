// One call on a policy and the choice that follows it, and how a table of them is run.
use rotation::{Ordered, Turns};
use schedule::Policy;
use std::alloc::Global;
use std::process::Abort;
use std::test::Fail;
use wire::{Priority, Urgency};

// The calls of a policy, and none, since a hundred rows would else wrap each call in an option.
#[derive(Clone, Copy, PartialEq, Debug)]
pub enum Call {
    None,
    Enter(u32, Priority),
    Alter(u32, Priority),
    Leave(u32),
    Served(u32, u32),
}

// Whether a policy accepts a call.
pub(crate) fn answer<P: Policy>(policy: &mut P, call: Call) -> bool {
    match call {
        Call::None => true,
        Call::Enter(id, priority) => policy.enter(id, priority),
        Call::Alter(id, priority) => policy.alter(id, priority),
        Call::Leave(id) => policy.leave(id),
        Call::Served(id, octets) => {
            policy.served(id, octets);
            true
        }
    }
}

// A call that is accepted, a list of ids, and whose turn it then is among them under turns and under ordered.
pub type Step = (Call, &'static [u32], Option<u32>, Option<u32>);

// Makes a call on a policy that is then to choose an id among some.
fn run_step<P: Policy>(
    rt: &impl Abort,
    kind: &str,
    policy: &mut P,
    call: Call,
    ids: &[u32],
    chosen: Option<u32>,
) {
    assert!(rt; answer(policy, call), "{call:?} under {kind}");
    assert_eq!(rt;
        policy.choose(ids),
        chosen,
        "{call:?}, {ids:?} under {kind}"
    );
}

// Runs the steps in order on a fresh policy of each kind.
pub(crate) fn run(rt: &impl Abort, heap: Global, steps: &[Step]) -> Result<(), Fail> {
    let mut turns = Turns::new(heap)?;
    let mut ordered = Ordered::new(heap)?;
    for (call, ids, of_turns, of_ordered) in steps {
        run_step(rt, "turns", &mut turns, *call, ids, *of_turns);
        run_step(rt, "ordered", &mut ordered, *call, ids, *of_ordered);
    }
    Ok(())
}

// Priorities that are not incremental.
pub const U0: Priority = Priority {
    urgency: Urgency::U0,
    incremental: false,
};

pub const U2: Priority = Priority {
    urgency: Urgency::U2,
    incremental: false,
};

pub const U3: Priority = Priority {
    urgency: Urgency::U3,
    incremental: false,
};

pub const U4: Priority = Priority {
    urgency: Urgency::U4,
    incremental: false,
};

pub const U7: Priority = Priority {
    urgency: Urgency::U7,
    incremental: false,
};

// And those that are.
pub const U2_INCREMENTAL: Priority = Priority {
    urgency: Urgency::U2,
    incremental: true,
};

pub const U3_INCREMENTAL: Priority = Priority {
    urgency: Urgency::U3,
    incremental: true,
};

pub const U4_INCREMENTAL: Priority = Priority {
    urgency: Urgency::U4,
    incremental: true,
};
