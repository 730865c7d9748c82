// What a sink has taken so far, and the space that is left.
ghost use Rattle.std.specs.Prelude.{◌≡◌, ◌+◌, ◌*◌, ◌^◌, ◌<◌, nat_le, is_some};

// The latest frame: its stream, whether it ended that, and its payload's length.
#[derive(Clone, Copy, PartialEq, Eq, Debug)]
pub struct Latest {
    pub id: u32,
    pub end: bool,
    pub length: u32,
}

// How many frames were taken, of how many payload octets, the latest of them, and the space that is left.
#[derive(Clone, Copy)]
pub struct Tally {
    pub(crate) frames: u32,
    pub(crate) octets: u32,
    pub(crate) latest: Option<Latest>,
    pub(crate) space: u32,
    ghost bounded: { 9 * frames + octets + space < 2 ^ 32 },
}

impl Tally {
    ghost use Rattle.sink.specs.Meaning.{fresh, taken};
    ghost use Rattle.sink.specs.Tallies.{used_by, meaning_of};

    // Nothing taken of a space.
    pub(crate) fn new(space: u32) -> Tally
        ensures { meaning_of result ≡ fresh space }
    {
        Tally {
            frames: 0,
            octets: 0,
            latest: None,
            space,
        }
    }

    // The octets of the frames, headers and payloads.
    pub(crate) fn used(&self) -> u32
        ensures { result ≡ used_by self.now }
    {
        9 * self.frames + self.octets
    }

    // The tally with one frame more; none where the frame exceeds the space.
    pub(crate) fn with(self, id: u32, end: bool, n: usize) -> Option<Tally>
        ensures fits { is_some result ≡ nat_le (9 + n) self.space }
        ensures takes { (t : _) → result ≡ Some t → meaning_of t ≡ taken (meaning_of self) id end n }
    {
        let length = u32::try_from(n).ok()?;
        let space = self.space.checked_sub(9)?.checked_sub(length)?;
        Some(Tally {
            frames: self.frames + 1,
            octets: self.octets + length,
            latest: Some(Latest { id, end, length }),
            space,
        })
    }
}
