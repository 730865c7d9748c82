// Priority values of every kind.
use std::process::Abort;
use wire::read_priority;

// A value with the urgency and the flag that it tells.
#[derive(Clone, Copy)]
struct Readable {
    value: &'static [u8],
    urgency: u8,
    incremental: bool,
}

const fn told(value: &'static [u8], urgency: u8, incremental: bool) -> Readable {
    Readable {
        value,
        urgency,
        incremental,
    }
}

// A value's urgency and flag; none where it is unreadable.
fn answer(value: &[u8]) -> Option<(u8, bool)> {
    read_priority(value).map(|priority| (priority.urgency.number(), priority.incremental))
}

fn check_readable(rt: &impl Abort, cases: &[Readable]) {
    for case in cases {
        assert_eq!(rt; answer(case.value), Some((case.urgency, case.incremental)));
    }
}

fn check_unreadable(rt: &impl Abort, cases: &[&'static [u8]]) {
    for value in cases {
        assert_eq!(rt; answer(value), None);
    }
}

#[test]
fn empty_values(rt: HostRuntime) {
    check_readable(
        &rt,
        &[
            told(b"", 3, false),
            told(b" ", 3, false),
            told(b"    ", 3, false),
        ],
    );
    check_unreadable(&rt, &[b"\t", b" \t", b"\t ", b"  \t  "]);
}

#[test]
fn urgencies(rt: HostRuntime) {
    check_readable(
        &rt,
        &[
            told(b"u=0", 0, false),
            told(b"u=1", 1, false),
            told(b"u=2", 2, false),
            told(b"u=3", 3, false),
            told(b"u=4", 4, false),
            told(b"u=5", 5, false),
            told(b"u=6", 6, false),
            told(b"u=7", 7, false),
            told(b"u=8", 3, false),
            told(b"u=10", 3, false),
            told(b"u=255", 3, false),
            told(b"u=256", 3, false),
            told(b"u=-1", 3, false),
            told(b"u=-7", 3, false),
            told(b"u=-0", 0, false),
            told(b"u=-000", 0, false),
            told(b"u=007", 7, false),
            told(b"u=000000000000002", 2, false),
            told(b"u=-000000000000000", 0, false),
            told(b"u=999999999999999", 3, false),
            told(b"u=-999999999999999", 3, false),
        ],
    );
    check_unreadable(
        &rt,
        &[
            b"u=0000000000000002",
            b"u=-0000000000000000",
            b"u=1234567890123456",
            b"u=-",
            b"u=--1",
            b"u=+1",
            b"u=1.0",
            b"u=1.",
            b"u=.5",
            b"u=1e1",
        ],
    );
}

#[test]
fn flags(rt: HostRuntime) {
    check_readable(
        &rt,
        &[
            told(b"i", 3, true),
            told(b"i=?1", 3, true),
            told(b"i=?0", 3, false),
            told(b"i=1", 3, false),
            told(b"i=0", 3, false),
            told(b"i=-1", 3, false),
            told(b"u", 3, false),
            told(b"u=?1", 3, false),
            told(b"u=?0", 3, false),
        ],
    );
    check_unreadable(
        &rt,
        &[
            b"i=", b"i=?", b"i=?2", b"i=?11", b"i=?-1", b"i=??1", b"i=true", b"?1",
        ],
    );
}

#[test]
fn several_members(rt: HostRuntime) {
    check_readable(
        &rt,
        &[
            told(b"u=1, u=9", 3, false),
            told(b"i=?0, u=-0", 0, false),
            told(b"u=5 , i", 5, true),
            told(b"u=1,u", 3, false),
            told(b"u=1,u=?1", 3, false),
            told(b"u=9,u=1", 1, false),
            told(b"i,i=?0", 3, false),
            told(b"i=?0,i", 3, true),
            told(b"i,i=1", 3, false),
            told(b"u=2,i", 2, true),
            told(b"i,u=2", 2, true),
            told(b"  u=2", 2, false),
            told(b"u=2  ", 2, false),
            told(b"u=2\t", 2, false),
            told(b"u=2 \t ", 2, false),
            told(b"u=2\t,\ti", 2, true),
            told(b"u=2 \t, \t i \t", 2, true),
            told(b"a,b,c,u=6,d", 6, false),
        ],
    );
    check_unreadable(
        &rt,
        &[
            b"u=2,", b"u=2, ", b"u=2,\t", b",", b",u", b"u,,i", b"u, ,i", b"u=5 i", b"u=5;i",
            b"u=5\ni", b"\tu=5", b" \tu=5",
        ],
    );
}

#[test]
fn keys(rt: HostRuntime) {
    check_readable(
        &rt,
        &[
            told(b"*", 3, false),
            told(b"*u=1", 3, false),
            told(b"uu=1", 3, false),
            told(b"u1=1", 3, false),
            told(b"u-=1", 3, false),
            told(b"u.=1", 3, false),
            told(b"u_=1", 3, false),
            told(b"u*=1", 3, false),
            told(b"ii", 3, false),
            told(b"a-z.0_9*=?1,u=4", 4, false),
            told(b"a=15,z,u=4,i", 4, true),
        ],
    );
    check_unreadable(
        &rt,
        &[
            b"U=1", b"uU=1", b"I", b"1", b"1u=1", b"-u=1", b"_u=1", b".u=1", b"=1", b"=", b"u\0",
            b"\0", b"u=\xb2", b"\xff", b"u@=1", b"`=1", b"{=1",
        ],
    );
}

#[test]
fn other_structured_fields(rt: HostRuntime) {
    check_unreadable(
        &rt,
        &[
            b"u=\"1\"",
            b"u=one",
            b"u=:AQ==:",
            b"u=(1 2)",
            b"u=1;q=2",
            b"x=\"text\",u=1",
            b"u=@1",
            b"u =1",
            b"u= 1",
            b"u\t=1",
            b"u=1 2",
            b"u==1",
        ],
    );
}

#[test]
fn longest_values(rt: HostRuntime) {
    let mut longest = [b' '; 256];
    longest[253..].copy_from_slice(b"u=1");
    assert_eq!(rt; answer(&longest), Some((1, false)));
    let mut longer = [b' '; 257];
    longer[254..].copy_from_slice(b"u=1");
    assert_eq!(rt; answer(&longer), None);
    assert_eq!(rt; answer(&[b' '; 256]), Some((3, false)));
    assert_eq!(rt; answer(&[b' '; 257]), None);
    assert_eq!(rt; answer(&[b'a'; 256]), Some((3, false)));
    assert_eq!(rt; answer(&[b'a'; 257]), None);
}
