// The urgency of a response, of RFC 9218.
ghost use Rattle.std.specs.Prelude.{◌≡◌};
ghost use Rattle.wire.specs.Urgencies.{urgency_number, Decodes};

// An urgency from 0, sent first, to 7; there is no other.
#[derive(Clone, Copy, PartialEq, Eq, Debug)]
pub enum Urgency {
    U0,
    U1,
    U2,
    U3,
    U4,
    U5,
    U6,
    U7,
}

// A number that is no urgency.
#[derive(Clone, Copy, PartialEq, Eq, Debug)]
pub struct UnknownUrgency(pub u8);

impl Urgency {
    // The urgency's number, from 0 to 7.
    pub fn number(self) -> u8
        ensures { result ≡ urgency_number self }
    {
        self as u8
    }
}

impl TryFrom<u8> for Urgency {
    type Error = UnknownUrgency;

    ghost try_from_gives = { Decodes };

    // The urgency of a number; none above 7.
    fn try_from(number: u8) -> Result<Urgency, UnknownUrgency> {
        match number {
            0 => Ok(Urgency::U0),
            1 => Ok(Urgency::U1),
            2 => Ok(Urgency::U2),
            3 => Ok(Urgency::U3),
            4 => Ok(Urgency::U4),
            5 => Ok(Urgency::U5),
            6 => Ok(Urgency::U6),
            7 => Ok(Urgency::U7),
            _ => Err(UnknownUrgency(number)),
        }
    }
}
