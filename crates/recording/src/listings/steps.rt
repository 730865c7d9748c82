// A listing line by line, and as a whole.
ghost use Rattle.std.specs.Prelude.{◌≡◌, not, ◌++◌, is_ok, IfOk, if◌then◌else◌, string_bytes, OnOk};
ghost use Rattle.recording.specs.Listings.{state, start, done, moved, moved_text, sum_text, listing_of};

use crate::lines::Line;
use crate::listings::Listing;
use crate::texts::Refused;
use std::alloc::{AllocError, Global};
use wire::split_frame;

impl<'a> Listing<'a> {
    // The listing of a recording, before its first line.
    pub fn new(octets: &'a [u8]) -> Listing<'a>
        ensures { state result ≡ start octets.now }
    {
        Listing {
            left: octets,
            frames: 0,
            faults: 0,
            octets: octets.len() as u64,
        }
    }

    // Appends the line of the next frame, and says whether there was one.
    pub fn append_line(&mut self, text: &mut String) -> Result<bool, AllocError>
        ensures answer { IfOk result (λ more. more ≡ not (done (state self.old))) }
        ensures after { state self.new ≡ (if is_ok result then moved (state self.old) else state self.old) }
        ensures text { OnOk result (string_bytes text.new ≡ string_bytes text.old ++ moved_text (state self.old)) }
    {
        if self.left.is_empty() {
            return Ok(false);
        }
        let (frame, left) = split_frame(self.left);
        let index = self.frames;
        match Line::of(frame) {
            Ok(line) => writeln!(text, "{index} {line}")?,
            Err(fault) => {
                writeln!(text, "{index} {}", Refused(fault))?;
                self.faults += 1;
            }
        }
        self.left = left;
        self.frames += 1;
        Ok(true)
    }

    // Appends the last line.
    pub fn append_sum(&self, text: &mut String) -> Result<(), AllocError>
        ensures { OnOk result (string_bytes text.new ≡ string_bytes text.old ++ sum_text (state self.now)) }
    {
        let frames = self.frames;
        let faults = self.faults;
        let octets = self.octets;
        writeln!(text, "sum {frames} {faults} {octets}")
    }
}

// The whole listing of a recording.
pub fn list(heap: Global, octets: &[u8]) -> Result<String, AllocError>
    ensures { IfOk result (λ text. string_bytes text ≡ listing_of octets.now) }
{
    let mut text = String::new(heap);
    let mut listing = Listing::new(octets);
    while listing.append_line(&mut text)? {}
    listing.append_sum(&mut text)?;
    Ok(text)
}
