// The pairs of a SETTINGS frame, gone through in order.
ghost use Rattle.std.specs.Prelude.{◌+◌, ◌^◌, ◌<◌, length};

use crate::numbers::number;

// A setting: its identifier, its value, and the place of the value's first octet in the frame.
#[derive(Clone, Copy, PartialEq, Eq, Debug)]
pub struct Setting {
    pub identifier: u16,
    pub value: u32,
    pub place: u32,
}

// The pairs that are still to come: a part of a frame's own octets, and its place in the frame.
#[derive(Clone, Copy)]
pub struct Pairs<'a> {
    pub(crate) octets: &'a [u8],
    pub(crate) place: u32,
    // The pairs end at a place of 32 bits.
    pub ghost ending: { place + length octets.now < 2 ^ 32 },
}

impl<'a> Iterator for Pairs<'a> {
    ghost use Rattle.std.specs.Iterator.{at_most};
    ghost use Rattle.wire.specs.Settings.{Next};

    type Item = Setting;

    ghost next_gives = { λ s r t. Next s r t };

    ghost remaining = { λ s. at_most (length s.octets.now) };

    // The next pair; none where fewer than six octets are left.
    fn next(&mut self) -> Option<Setting> {
        let (pair, rest) = self.octets.split_at_checked(6)?;
        let place = self.place;
        *self = Pairs {
            octets: rest,
            place: place + 6,
        };
        Some(Setting {
            identifier: number(&pair[0..2]) as u16,
            value: number(&pair[2..6]),
            place: place + 2,
        })
    }
}
