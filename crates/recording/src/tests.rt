// Listings of recordings that stop early.
use crate::{list, list_to};
use std::test::Fail;

#[test]
fn lists_no_frame(rt: HostRuntime) -> Result<(), Fail> {
    let text = list(rt.alloc(), b"")?;
    assert_eq!(rt; text.as_str(), "sum 0 0 0\n");
    Ok(())
}

#[test]
fn lists_a_header_cut_short(rt: HostRuntime) -> Result<(), Fail> {
    let text = list(rt.alloc(), b"\x00\x00\x00\x04\x01\x00\x00\x00\x00\x00\x00")?;
    assert_eq!(rt;
        text.as_str(),
        "0 settings ack\n1 fault 2 0 0 0\nsum 2 1 11\n"
    );
    Ok(())
}

#[test]
fn lists_from_a_reader_to_a_writer(rt: HostRuntime) -> Result<(), Fail> {
    let mut from = b"\x00\x00\x00\x04\x01\x00\x00\x00\x00\x00\x00".as_slice();
    let mut to = "on ".to_string(rt.alloc())?.into_bytes();
    list_to(rt.alloc(), &mut from, &mut to)?;
    assert_eq!(rt; from.len(), 0);
    assert_eq!(rt;
        to.as_slice(),
        b"on 0 settings ack\n1 fault 2 0 0 0\nsum 2 1 11\n".as_slice()
    );
    Ok(())
}
