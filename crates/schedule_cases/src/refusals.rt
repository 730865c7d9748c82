// Calls at both sides of each refusal, and what the questions then tell.
use crate::steps::*;
use rotation::{Ordered, Turns};
use schedule::Policy;
use std::alloc::Global;
use std::process::Abort;
use std::test::Fail;
use wire::Priority;

// A call, whether it is accepted, and what then stands of one id and of all.
#[derive(Clone, Copy)]
struct Case {
    call: Call,
    accepted: bool,
    id: u32,
    priority: Option<Priority>,
    entered: u32,
}

fn accepted(call: Call, id: u32, priority: Option<Priority>, entered: u32) -> Case {
    Case {
        call,
        accepted: true,
        id,
        priority,
        entered,
    }
}

fn refused(call: Call, id: u32, priority: Option<Priority>, entered: u32) -> Case {
    Case {
        accepted: false,
        ..accepted(call, id, priority, entered)
    }
}

fn check_case<P: Policy>(rt: &impl Abort, kind: &str, policy: &mut P, case: Case) {
    let call = case.call;
    assert_eq!(rt;
        answer(policy, call),
        case.accepted,
        "{call:?} under {kind}"
    );
    assert_eq!(rt;
        policy.priority(case.id),
        case.priority,
        "{call:?} under {kind}"
    );
    assert_eq!(rt; policy.entered(), case.entered, "{call:?} under {kind}");
    assert_eq!(rt; policy.limit(), 64, "under {kind}");
}

fn check_cases<P: Policy>(rt: &impl Abort, kind: &str, policy: &mut P, cases: &[Case]) {
    for case in cases {
        check_case(rt, kind, policy, *case);
    }
}

// Checks the cases in order on a fresh policy of each kind.
fn check_on_both(rt: &impl Abort, heap: Global, cases: &[Case]) -> Result<(), Fail> {
    check_cases(rt, "turns", &mut Turns::new(heap)?, cases);
    check_cases(rt, "ordered", &mut Ordered::new(heap)?, cases);
    Ok(())
}

#[test]
fn in_and_not_in(rt: HostRuntime) -> Result<(), Fail> {
    check_on_both(
        &rt,
        rt.alloc(),
        &[
            accepted(Call::None, 1, None, 0),
            refused(Call::Alter(1, U3), 1, None, 0),
            refused(Call::Leave(1), 1, None, 0),
            accepted(Call::Enter(1, U3), 1, Some(U3), 1),
            refused(Call::Enter(1, U0), 1, Some(U3), 1),
            refused(Call::Alter(3, U0), 1, Some(U3), 1),
            refused(Call::Leave(3), 1, Some(U3), 1),
            accepted(Call::Enter(3, U2_INCREMENTAL), 3, Some(U2_INCREMENTAL), 2),
            accepted(Call::None, 1, Some(U3), 2),
            accepted(Call::Leave(1), 1, None, 1),
            refused(Call::Leave(1), 1, None, 1),
            refused(Call::Alter(1, U3), 3, Some(U2_INCREMENTAL), 1),
            accepted(Call::Enter(1, U7), 1, Some(U7), 2),
        ],
    )
}

#[test]
fn urgency_and_flag(rt: HostRuntime) -> Result<(), Fail> {
    check_on_both(
        &rt,
        rt.alloc(),
        &[
            accepted(Call::Enter(0, U3), 0, Some(U3), 1),
            accepted(Call::Alter(0, U3_INCREMENTAL), 0, Some(U3_INCREMENTAL), 1),
            accepted(Call::Alter(0, U4_INCREMENTAL), 0, Some(U4_INCREMENTAL), 1),
            accepted(Call::Alter(0, U4), 0, Some(U4), 1),
            accepted(Call::Alter(0, U4), 0, Some(U4), 1),
            accepted(Call::Served(0, 100), 0, Some(U4), 1),
            accepted(Call::Served(1, 100), 1, None, 1),
            accepted(Call::Enter(4_294_967_295, U0), 4_294_967_295, Some(U0), 2),
            accepted(Call::None, 0, Some(U4), 2),
            accepted(Call::Leave(0), 4_294_967_295, Some(U0), 1),
        ],
    )
}

// Enters the ids 1 to 63.
fn enter_63<P: Policy>(rt: &impl Abort, policy: &mut P) {
    for id in 1..64 {
        assert!(rt; policy.enter(id, U3));
    }
    assert_eq!(rt; policy.entered(), 63);
}

fn check_limit<P: Policy>(rt: &impl Abort, kind: &str, policy: &mut P) {
    enter_63(rt, policy);
    check_cases(
        rt,
        kind,
        policy,
        &[
            refused(Call::Enter(63, U0), 63, Some(U3), 63),
            accepted(Call::Enter(64, U4), 64, Some(U4), 64),
            refused(Call::Enter(65, U0), 65, None, 64),
            refused(Call::Enter(64, U0), 64, Some(U4), 64),
            refused(Call::Alter(65, U0), 65, None, 64),
            refused(Call::Leave(65), 65, None, 64),
            accepted(Call::Alter(64, U2), 64, Some(U2), 64),
            accepted(Call::Served(64, 100), 64, Some(U2), 64),
            accepted(Call::Leave(10), 10, None, 63),
            accepted(Call::Enter(65, U0), 65, Some(U0), 64),
            refused(Call::Enter(10, U0), 10, None, 64),
        ],
    );
    assert_eq!(rt; policy.choose(&[64, 65, 10, 63]), Some(65));
    assert_eq!(rt; policy.choose(&[63, 10, 1, 64]), Some(64));
    assert_eq!(rt; policy.choose(&[63, 10, 62]), Some(62));
}

#[test]
fn limit_of_turns(rt: HostRuntime) -> Result<(), Fail> {
    check_limit(&rt, "turns", &mut Turns::new(rt.alloc())?);
    Ok(())
}

#[test]
fn limit_of_ordered(rt: HostRuntime) -> Result<(), Fail> {
    check_limit(&rt, "ordered", &mut Ordered::new(rt.alloc())?);
    Ok(())
}
