// Frames at the edge of every check.
use crate::faults::{FRAME_SIZE, NOT_WHOLE, Told, WRONG_STREAM, told};
use std::alloc::{AllocError, Global};
use std::process::Abort;
use std::test::Fail;
use wire::{Frame, Setting, read_frame, split_frame};

// What a frame said, with a borrowed part by its length and place.
#[derive(Clone, Copy, PartialEq, Debug)]
enum Said {
    Settings {
        octets: usize,
        first: Option<Setting>,
    },
    SettingsAck,
    WindowUpdate {
        stream: u32,
        increment: u32,
    },
    ResetStream {
        stream: u32,
        code: u32,
    },
    PriorityUpdate {
        target: u32,
        octets: usize,
        place: u32,
    },
    Other {
        kind: u8,
        stream: u32,
    },
}

fn read(octets: &[u8]) -> Result<Said, Told> {
    let said = match read_frame(octets).map_err(told)? {
        Frame::Settings(mut pairs) => Said::Settings {
            octets: octets.len().saturating_sub(9),
            first: pairs.next(),
        },
        Frame::SettingsAck => Said::SettingsAck,
        Frame::WindowUpdate { stream, increment } => Said::WindowUpdate { stream, increment },
        Frame::ResetStream { stream, code } => Said::ResetStream { stream, code },
        Frame::PriorityUpdate {
            target,
            value,
            place,
        } => Said::PriorityUpdate {
            target,
            octets: value.len(),
            place,
        },
        Frame::Other { kind, stream } => Said::Other { kind, stream },
    };
    Ok(said)
}

// Octets, and what they say as one frame.
#[derive(Clone, Copy)]
struct Case {
    octets: &'static [u8],
    said: Result<Said, Told>,
}

fn check_all(rt: &impl Abort, cases: &[Case]) {
    for case in cases {
        assert_eq!(rt; read(case.octets), case.said);
    }
}

#[test]
fn whole_frames(rt: HostRuntime) {
    check_all(
        &rt,
        &[
            Case {
                octets: b"",
                said: Err(NOT_WHOLE),
            },
            Case {
                octets: b"\0\0\0\x06\0\0\0\0",
                said: Err(NOT_WHOLE),
            },
            Case {
                octets: b"\0\0\0\x06\0\0\0\0\0",
                said: Ok(Said::Other { kind: 6, stream: 0 }),
            },
            Case {
                octets: b"\0\0\0\x06\0\0\0\0\0\0",
                said: Err(NOT_WHOLE),
            },
            Case {
                octets: b"\0\0\x02\x06\0\0\0\0\0\x01",
                said: Err(NOT_WHOLE),
            },
            Case {
                octets: b"\0\0\x02\x06\0\0\0\0\0\x01\x02",
                said: Ok(Said::Other { kind: 6, stream: 0 }),
            },
            Case {
                octets: b"\0\0\x02\x06\0\0\0\0\0\x01\x02\x03",
                said: Err(NOT_WHOLE),
            },
            Case {
                octets: b"\0\x01\0\x06\0\0\0\0\0\x01",
                said: Err(NOT_WHOLE),
            },
            Case {
                octets: b"\x01\0\0\x06\0\0\0\0\0\x01",
                said: Err(NOT_WHOLE),
            },
            Case {
                octets: b"\xff\xff\xff\x06\0\0\0\0\0",
                said: Err(NOT_WHOLE),
            },
        ],
    );
}

#[test]
fn other_types(rt: HostRuntime) {
    check_all(
        &rt,
        &[
            Case {
                octets: b"\0\0\x01\0\x01\0\0\0\x01a",
                said: Ok(Said::Other { kind: 0, stream: 1 }),
            },
            Case {
                octets: b"\0\0\0\x01\x04\0\0\0\x03",
                said: Ok(Said::Other { kind: 1, stream: 3 }),
            },
            Case {
                octets: b"\0\0\0\xff\xff\x80\0\0\x05",
                said: Ok(Said::Other {
                    kind: 255,
                    stream: 5,
                }),
            },
            Case {
                octets: b"\0\0\0\x07\0\xff\xff\xff\xff",
                said: Ok(Said::Other {
                    kind: 7,
                    stream: 2147483647,
                }),
            },
            Case {
                octets: b"\0\0\0\x11\0\x01\x02\x03\x04",
                said: Ok(Said::Other {
                    kind: 17,
                    stream: 16909060,
                }),
            },
        ],
    );
}

#[test]
fn settings_frames(rt: HostRuntime) {
    let first = Some(Setting {
        identifier: 258,
        value: 50595078,
        place: 11,
    });
    check_all(
        &rt,
        &[
            Case {
                octets: b"\0\0\0\x04\0\0\0\0\0",
                said: Ok(Said::Settings {
                    octets: 0,
                    first: None,
                }),
            },
            Case {
                octets: b"\0\0\x06\x04\0\0\0\0\0\x01\x02\x03\x04\x05\x06",
                said: Ok(Said::Settings { octets: 6, first }),
            },
            Case {
                octets: b"\0\0\x06\x04\xfe\x80\0\0\0\x01\x02\x03\x04\x05\x06",
                said: Ok(Said::Settings { octets: 6, first }),
            },
            Case {
                octets: b"\0\0\x05\x04\0\0\0\0\0\x01\x02\x03\x04\x05",
                said: Err(FRAME_SIZE),
            },
            Case {
                octets: b"\0\0\x07\x04\0\0\0\0\0\x01\x02\x03\x04\x05\x06\x07",
                said: Err(FRAME_SIZE),
            },
            Case {
                octets: b"\0\0\0\x04\x01\0\0\0\0",
                said: Ok(Said::SettingsAck),
            },
            Case {
                octets: b"\0\0\0\x04\xff\x80\0\0\0",
                said: Ok(Said::SettingsAck),
            },
            Case {
                octets: b"\0\0\x06\x04\x01\0\0\0\0\x01\x02\x03\x04\x05\x06",
                said: Err(FRAME_SIZE),
            },
            Case {
                octets: b"\0\0\x01\x04\x01\0\0\0\0\x01",
                said: Err(FRAME_SIZE),
            },
            Case {
                octets: b"\0\0\0\x04\0\0\0\0\x01",
                said: Err(WRONG_STREAM),
            },
            Case {
                octets: b"\0\0\0\x04\x01\0\0\0\x01",
                said: Err(WRONG_STREAM),
            },
            Case {
                octets: b"\0\0\x01\x04\0\0\0\0\x03\x01",
                said: Err(WRONG_STREAM),
            },
        ],
    );
}

#[test]
fn window_updates_and_resets(rt: HostRuntime) {
    check_all(
        &rt,
        &[
            Case {
                octets: b"\0\0\x04\x08\0\0\0\0\0\0\0\0\x01",
                said: Ok(Said::WindowUpdate {
                    stream: 0,
                    increment: 1,
                }),
            },
            Case {
                octets: b"\0\0\x04\x08\xff\x80\0\0\x07\x80\0\0\x01",
                said: Ok(Said::WindowUpdate {
                    stream: 7,
                    increment: 1,
                }),
            },
            Case {
                octets: b"\0\0\x04\x08\0\0\0\0\x01\x80\0\0\0",
                said: Ok(Said::WindowUpdate {
                    stream: 1,
                    increment: 0,
                }),
            },
            Case {
                octets: b"\0\0\x04\x08\0\0\0\0\x01\xff\xff\xff\xff",
                said: Ok(Said::WindowUpdate {
                    stream: 1,
                    increment: 2147483647,
                }),
            },
            Case {
                octets: b"\0\0\x03\x08\0\0\0\0\x01\0\0\0",
                said: Err(FRAME_SIZE),
            },
            Case {
                octets: b"\0\0\x05\x08\0\0\0\0\x01\0\0\0\0\0",
                said: Err(FRAME_SIZE),
            },
            Case {
                octets: b"\0\0\0\x08\0\0\0\0\x01",
                said: Err(FRAME_SIZE),
            },
            Case {
                octets: b"\0\0\x04\x03\0\0\0\0\x01\0\0\0\x08",
                said: Ok(Said::ResetStream { stream: 1, code: 8 }),
            },
            Case {
                octets: b"\0\0\x04\x03\0\0\0\0\0\xff\xff\xff\xff",
                said: Ok(Said::ResetStream {
                    stream: 0,
                    code: 4294967295,
                }),
            },
            Case {
                octets: b"\0\0\x03\x03\0\0\0\0\x01\0\0\0",
                said: Err(FRAME_SIZE),
            },
            Case {
                octets: b"\0\0\x05\x03\0\0\0\0\x01\0\0\0\0\0",
                said: Err(FRAME_SIZE),
            },
        ],
    );
}

#[test]
fn priority_updates(rt: HostRuntime) {
    check_all(
        &rt,
        &[
            Case {
                octets: b"\0\0\x04\x10\0\0\0\0\0\0\0\0\x01",
                said: Ok(Said::PriorityUpdate {
                    target: 1,
                    octets: 0,
                    place: 13,
                }),
            },
            Case {
                octets: b"\0\0\x07\x10\0\x80\0\0\0\x80\0\0\x03u=1",
                said: Ok(Said::PriorityUpdate {
                    target: 3,
                    octets: 3,
                    place: 13,
                }),
            },
            Case {
                octets: b"\0\0\x05\x10\0\0\0\0\0\0\0\0\0,",
                said: Ok(Said::PriorityUpdate {
                    target: 0,
                    octets: 1,
                    place: 13,
                }),
            },
            Case {
                octets: b"\0\0\x03\x10\0\0\0\0\0\0\0\0",
                said: Err(FRAME_SIZE),
            },
            Case {
                octets: b"\0\0\0\x10\0\0\0\0\0",
                said: Err(FRAME_SIZE),
            },
            Case {
                octets: b"\0\0\x04\x10\0\0\0\0\x01\0\0\0\x01",
                said: Err(WRONG_STREAM),
            },
            Case {
                octets: b"\0\0\x03\x10\0\0\0\0\x01\0\0\0",
                said: Err(WRONG_STREAM),
            },
        ],
    );
}

// Zero octets behind a header of their length.
fn zeros(heap: Global, length: u32, kind: u8) -> Result<Vec<u8>, AllocError> {
    let [_, high, middle, low] = length.to_be_bytes();
    let mut octets = vec![in heap; high, middle, low, kind, 0, 0, 0, 0, 0]?;
    octets.resize(9 + length as usize, 0)?;
    Ok(octets)
}

#[test]
fn longest_frames(rt: HostRuntime) -> Result<(), Fail> {
    for kind in [0u8, 1, 6, 9, 255] {
        assert_eq!(rt;
            read(zeros(rt.alloc(), 16384, kind)?.as_slice()),
            Ok(Said::Other { kind, stream: 0 })
        );
        assert_eq!(rt;
            read(zeros(rt.alloc(), 16385, kind)?.as_slice()),
            Err(FRAME_SIZE)
        );
    }
    let empty = Some(Setting {
        identifier: 0,
        value: 0,
        place: 11,
    });
    assert_eq!(rt;
        read(zeros(rt.alloc(), 16380, 4)?.as_slice()),
        Ok(Said::Settings {
            octets: 16380,
            first: empty,
        })
    );
    assert_eq!(rt;
        read(zeros(rt.alloc(), 16384, 4)?.as_slice()),
        Err(FRAME_SIZE)
    );
    assert_eq!(rt;
        read(zeros(rt.alloc(), 16386, 4)?.as_slice()),
        Err(FRAME_SIZE)
    );
    assert_eq!(rt;
        read(zeros(rt.alloc(), 16384, 16)?.as_slice()),
        Ok(Said::PriorityUpdate {
            target: 0,
            octets: 16380,
            place: 13,
        })
    );
    assert_eq!(rt;
        read(zeros(rt.alloc(), 16385, 16)?.as_slice()),
        Err(FRAME_SIZE)
    );
    assert_eq!(rt;
        read(zeros(rt.alloc(), 65536, 8)?.as_slice()),
        Err(FRAME_SIZE)
    );
    Ok(())
}

#[test]
fn settings_in_order(rt: HostRuntime) -> Result<(), Fail> {
    let octets = b"\0\0\x12\x04\0\0\0\0\0\0\x04\0\0\xff\xff\0\x05\0\x01\0\0\0\x04\0\0\0\x05";
    let Ok(Frame::Settings(pairs)) = read_frame(octets) else {
        panic!(rt; "no settings");
    };
    let expected = [
        Setting {
            identifier: 4,
            value: 65535,
            place: 11,
        },
        Setting {
            identifier: 5,
            value: 65536,
            place: 17,
        },
        Setting {
            identifier: 4,
            value: 5,
            place: 23,
        },
    ];
    assert_eq!(rt;
        pairs.collect::<Vec<Setting>>(rt.alloc())?.as_slice(),
        expected.as_slice()
    );
    Ok(())
}

#[test]
fn frames_split(rt: HostRuntime) {
    let octets = b"\0\0\x01\0\x01\0\0\0\x01a\0\0\0\x06\0\0\0\0\0\0\0\x02\x06";
    let (first, rest) = split_frame(octets);
    assert_eq!(rt; first, b"\0\0\x01\0\x01\0\0\0\x01a".as_slice());
    let (second, rest) = split_frame(rest);
    assert_eq!(rt; second, b"\0\0\0\x06\0\0\0\0\0".as_slice());
    let (cut, rest) = split_frame(rest);
    assert_eq!(rt; cut, b"\0\0\x02\x06".as_slice());
    assert_eq!(rt; rest.len(), 0);
    let (cut, rest) = split_frame(b"\0\0\x02\x06\0\0\0\0\0a");
    assert_eq!(rt; cut.len(), 10);
    assert_eq!(rt; rest.len(), 0);
    let (none, rest) = split_frame(b"");
    assert_eq!(rt; none.len(), 0);
    assert_eq!(rt; rest.len(), 0);
}
