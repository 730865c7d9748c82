// The listing of what a reader gives, on a writer.
ghost use Rattle.std.specs.Prelude.{IfSome, OnOk};
ghost use Rattle.std.specs.Io.KnownBytes.{Appends, IsAtEnd};
ghost use Rattle.recording.specs.Listings.{listing_of};

use crate::listings::Listing;
use std::alloc::Global;
use std::io;
use std::io::{Read, Write};

// Lists the recording on standard input, on standard output; what these hold, no contract says, and `list_to` has what is promised.
pub fn print(rt: &HostRuntime) -> io::Result<()> {
    list_to(rt.alloc(), &mut rt.stdin(), &mut rt.stdout())
}

// Lists the recording that a reader has left, on a writer.
pub fn list_to<R: Read, W: Write>(heap: Global, from: &mut R, to: &mut W) -> io::Result<()>
    ensures text { OnOk result (IfSome (R.remaining from.old) (λ octets. Appends (W.contents to.old) (W.contents to.new) (listing_of octets))) }
    ensures end { OnOk result (IsAtEnd (R.remaining from.new)) }
{
    let mut octets = Vec::new(heap);
    from.read_to_end(&mut octets)?;
    let mut text = String::new(heap);
    let mut listing = Listing::new(octets.as_slice());
    while listing.append_chunk(&mut text)? {
        to.write_all(text.as_bytes())?;
        text.clear();
    }
    to.write_all(text.as_bytes())
}
