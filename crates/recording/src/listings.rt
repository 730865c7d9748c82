// A recording on the way through its frames.
ghost use Rattle.std.specs.Prelude.{◌+◌, ◌≤◌, length};

mod chunks;
pub(crate) mod steps;

// What is left of the octets, the lines and the faults among them so far, and how many octets there were at first.
#[derive(Drop)]
pub struct Listing<'a> {
    left: &'a [u8],
    frames: u64,
    faults: u64,
    octets: u64,
    ghost counted: { (frames + length left.now ≤ octets) × (faults ≤ frames) },
}
