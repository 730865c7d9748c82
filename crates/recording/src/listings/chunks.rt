// A listing in chunks, for a text that is handed on and begun anew.
ghost use Rattle.std.specs.Prelude.{◌≡◌, ◌<◌, true, [], ◌++◌, length, IfOk, if◌then◌else◌, string_bytes};
ghost use Rattle.recording.specs.Listings.{state, to_come};

use crate::listings::Listing;
use std::alloc::AllocError;

// How long a text grows before it is handed on.
const CHUNK: usize = 65_536;

impl<'a> Listing<'a> {
    // Appends lines until the text is long enough, and behind the last of them the sum; says whether more is to come.
    pub fn append_chunk(&mut self, text: &mut String) -> Result<bool, AllocError>
        ensures text { IfOk result (λ more. string_bytes text.new ++ (if more then to_come (state self.new) else []) ≡ string_bytes text.old ++ to_come (state self.old)) }
        ensures left { IfOk result (λ more. more ≡ true → length (state self.new).left < length (state self.old).left) }
    {
        while self.append_line(text)? {
            if text.len() >= CHUNK {
                return Ok(true);
            }
        }
        self.append_sum(text)?;
        Ok(false)
    }
}
