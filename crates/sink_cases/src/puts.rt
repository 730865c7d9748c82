// Frames put at exactly enough space and at one octet too little.
use sink::{ByteSink, CountingSink, Latest, Refusal, Sink, write_pair};
use std::process::Abort;
use std::test::Fail;
use wire::{Fault, read_data};

// What all questions tell of a sink.
#[derive(Clone, Copy, PartialEq, Debug)]
struct Told {
    frames: u64,
    octets: u64,
    latest: Option<Latest>,
    space: u64,
}

fn told_by<S: Sink>(sink: &S) -> Told {
    Told {
        frames: sink.frames(),
        octets: sink.octets(),
        latest: sink.latest(),
        space: sink.space(),
    }
}

// A space, the payload of a frame of stream 1 with END_STREAM, and whether the frame is taken.
type Case = (usize, &'static [u8], bool);

const CASES: [Case; 8] = [
    (0, b"", false),
    (8, b"", false),
    (9, b"", true),
    (9, b"a", false),
    (10, b"a", true),
    (14, b"abcdef", false),
    (15, b"abcdef", true),
    (1000, b"abcdef", true),
];

// Puts a case's frame, and checks the answer and what the sink tells before and after.
fn check_case<S: Sink>(
    rt: &impl Abort,
    sink: &mut S,
    (space, payload, taken): Case,
) -> Result<(), Fail> {
    let before = Told {
        frames: 0,
        octets: 0,
        latest: None,
        space: space as u64,
    };
    assert_eq!(rt; told_by(sink), before);
    let answer = sink.put(1, true, payload);
    if !taken {
        assert_eq!(rt; answer, Err(Refusal::Full));
        assert_eq!(rt; told_by(sink), before);
        return Ok(());
    }
    assert_eq!(rt; answer, Ok(()));
    let length = u32::try_from(payload.len())?;
    let octets = u64::from(length);
    let latest = Some(Latest {
        id: 1,
        end: true,
        length,
    });
    let after = Told {
        frames: 1,
        octets,
        latest,
        space: before.space.saturating_sub(9 + octets),
    };
    assert_eq!(rt; told_by(sink), after);
    Ok(())
}

#[test]
fn counting_sinks(rt: HostRuntime) -> Result<(), Fail> {
    for case in CASES {
        let (space, _, _) = case;
        check_case(&rt, &mut CountingSink::new(u32::try_from(space)?), case)?;
    }
    Ok(())
}

#[test]
fn byte_sinks(rt: HostRuntime) -> Result<(), Fail> {
    for case in CASES {
        let (space, _, taken) = case;
        let mut memory = vec![in rt.alloc(); 7u8; space]?;
        check_case(&rt, &mut ByteSink::new(memory.as_mut_slice()), case)?;
        assert!(rt; taken || memory.iter().all(|octet| *octet == 7));
    }
    Ok(())
}

#[test]
fn spaces_of_memories(rt: HostRuntime) -> Result<(), Fail> {
    for (length, space) in [
        (0usize, 0u64),
        (8, 8),
        (9, 9),
        (65_535, 65_535),
        (65_536, 65_536),
        (65_537, 65_536),
        (70_000, 65_536),
    ] {
        let mut memory = vec![in rt.alloc(); 7u8; length]?;
        assert_eq!(rt; ByteSink::new(memory.as_mut_slice()).space(), space);
    }
    Ok(())
}

#[test]
fn longest_counting_sink(rt: HostRuntime) {
    let mut sink = CountingSink::new(u32::MAX);
    assert_eq!(rt; sink.put(3, false, b"abc"), Ok(()));
    assert_eq!(rt; sink.put(5, false, b""), Ok(()));
    let latest = Some(Latest {
        id: 5,
        end: false,
        length: 0,
    });
    assert_eq!(rt;
        told_by(&sink),
        Told {
            frames: 2,
            octets: 3,
            latest,
            space: 4_294_967_274,
        }
    );
}

// The last octets that a byte sink may write, and the first that it may not.
#[test]
fn the_end_of_a_long_memory(rt: HostRuntime) -> Result<(), Fail> {
    let mut memory = vec![in rt.alloc(); 7u8; 70_000]?;
    let payload = vec![in rt.alloc(); 1u8; 65_527]?;
    let mut sink = ByteSink::new(memory.as_mut_slice());
    assert_eq!(rt; sink.put(1, false, payload.as_slice()), Ok(()));
    assert_eq!(rt; sink.space(), 0);
    assert_eq!(rt; sink.put(1, true, b""), Err(Refusal::Full));
    assert_eq!(rt; memory.get(65_535).copied(), Some(1));
    assert_eq!(rt; memory.get(65_536).copied(), Some(7));
    Ok(())
}

fn read_at(memory: &[u8], from: usize, to: usize) -> Result<(u32, bool, usize), Fault> {
    let octets = memory.get(from..to).unwrap_or(&[]);
    let data = read_data(octets)?;
    Ok((data.stream, data.end, data.payload.len()))
}

#[test]
fn frames_read_back(rt: HostRuntime) {
    let mut memory = [7; 30];
    assert_eq!(rt; write_pair(&mut memory, 5, b"ab", b"cdef"), Ok(()));
    assert_eq!(rt;
        memory,
        *b"\0\0\x02\0\0\0\0\0\x05ab\0\0\x04\0\x01\0\0\0\x05cdef\x07\x07\x07\x07\x07\x07"
    );
    assert_eq!(rt; read_at(&memory, 0, 11), Ok((5, false, 2)));
    assert_eq!(rt; read_at(&memory, 11, 24), Ok((5, true, 4)));
}

#[test]
fn pairs_cut_short(rt: HostRuntime) {
    let mut memory = [7; 23];
    assert_eq!(rt;
        write_pair(&mut memory, 5, b"ab", b"cdef"),
        Err(Refusal::Full)
    );
    assert_eq!(rt;
        memory,
        *b"\0\0\x02\0\0\0\0\0\x05ab\x07\x07\x07\x07\x07\x07\x07\x07\x07\x07\x07\x07"
    );
    let mut short = [7; 10];
    assert_eq!(rt; write_pair(&mut short, 5, b"ab", b""), Err(Refusal::Full));
    assert_eq!(rt; short, [7; 10]);
}
