// DATA frames, written and read back.
use crate::faults::{NOT_WHOLE, Told, told};
use std::test::Fail;
use wire::{read_data, write_data};

// The stream, the flag and the payload's length that octets tell as one DATA frame.
fn said(octets: &[u8]) -> Result<(u32, bool, usize), Told> {
    let frame = read_data(octets).map_err(told)?;
    Ok((frame.stream, frame.end, frame.payload.len()))
}

#[test]
fn octets_written(rt: HostRuntime) {
    let mut memory = [7; 14];
    assert_eq!(rt;
        write_data(&mut memory, 1, 0x8102_0304, true, b"abc"),
        Some(12)
    );
    assert_eq!(rt; memory, *b"\x07\0\0\x03\0\x01\x01\x02\x03\x04abc\x07");
    assert_eq!(rt; write_data(&mut memory, 5, 5, false, b""), Some(9));
    assert_eq!(rt; memory, *b"\x07\0\0\x03\0\0\0\0\0\0\0\0\0\x05");
}

#[test]
fn nothing_written(rt: HostRuntime) {
    let mut memory = [7; 12];
    assert_eq!(rt; write_data(&mut memory, 0, 1, true, b"abcd"), None);
    assert_eq!(rt; write_data(&mut memory, 1, 1, true, b"abc"), None);
    assert_eq!(rt; write_data(&mut memory, 12, 1, true, b""), None);
    assert_eq!(rt; write_data(&mut memory, usize::MAX, 1, true, b""), None);
    assert_eq!(rt; memory, [7; 12]);
    assert_eq!(rt; write_data(&mut memory, 0, 1, true, b"abc"), Some(12));
}

#[test]
fn data_read(rt: HostRuntime) {
    assert_eq!(rt; said(b"\0\0\x02\0\0\0\0\0\x01ab"), Ok((1, false, 2)));
    assert_eq!(rt; said(b"\0\0\x02\0\x01\x80\0\0\x01ab"), Ok((1, true, 2)));
    assert_eq!(rt; said(b"\0\0\x02\0\xfe\0\0\0\x01ab"), Ok((1, false, 2)));
    assert_eq!(rt; said(b"\0\0\x02\0\xff\0\0\0\x01ab"), Ok((1, true, 2)));
    assert_eq!(rt; said(b"\0\0\0\0\x01\0\0\0\0"), Ok((0, true, 0)));
    assert_eq!(rt; said(b"\0\0\x02\x01\x01\0\0\0\x01ab"), Err(NOT_WHOLE));
    assert_eq!(rt; said(b"\0\0\x02\0\x01\0\0\0\x01a"), Err(NOT_WHOLE));
    assert_eq!(rt; said(b"\0\0\x02\0\x01\0\0\0\x01abc"), Err(NOT_WHOLE));
    assert_eq!(rt; said(b"\0\0\0\0\x01\0\0\0"), Err(NOT_WHOLE));
}

#[test]
fn read_back(rt: HostRuntime) {
    for stream in [0u32, 1, 255, 256, 65535, 65536, 16777216, 2147483647] {
        for end in [false, true] {
            let mut memory = [0; 40];
            assert_eq!(rt;
                write_data(&mut memory, 20, stream, end, b"payload"),
                Some(16)
            );
            assert_eq!(rt; said(&memory[20..36]), Ok((stream, end, 7)));
        }
    }
}

#[test]
fn longest_payloads(rt: HostRuntime) -> Result<(), Fail> {
    let payload = vec![in rt.alloc(); 5u8; 16_777_216]?;
    let mut memory = vec![in rt.alloc(); 0u8; 16_777_225]?;
    assert_eq!(rt;
        write_data(memory.as_mut_slice(), 0, 3, true, payload.as_slice()),
        None
    );
    let (longest, _) = payload.as_slice().split_at(16_777_215);
    assert_eq!(rt;
        write_data(memory.as_mut_slice(), 0, 3, true, longest),
        Some(16_777_224)
    );
    let (written, _) = memory.as_slice().split_at(16_777_224);
    assert_eq!(rt; said(written), Ok((3, true, 16_777_215)));
    Ok(())
}
