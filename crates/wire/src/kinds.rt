// The frame types that are known, and the octets that stand for them.
ghost use Rattle.std.specs.Prelude.{◌≡◌};
ghost use Rattle.wire.specs.Kinds.{octet_of, Decodes};

// A frame type that is read or written; of any other, only the octet is kept.
#[derive(Clone, Copy, PartialEq, Eq, Debug)]
pub enum Kind {
    // DATA, of RFC 9113.
    Data = 0x0,
    // RST_STREAM, of RFC 9113.
    ResetStream = 0x3,
    // SETTINGS, of RFC 9113.
    Settings = 0x4,
    // WINDOW_UPDATE, of RFC 9113.
    WindowUpdate = 0x8,
    // PRIORITY_UPDATE, of RFC 9218.
    PriorityUpdate = 0x10,
}

// An octet that stands for no known frame type.
#[derive(Clone, Copy, PartialEq, Eq, Debug)]
pub struct UnknownKind(pub u8);

impl Kind {
    // The octet that stands for the type in a frame's header.
    pub fn octet(self) -> u8
        ensures { result ≡ octet_of self }
    {
        self as u8
    }
}

// Numbered enums read their numbers alike, each with its own table, since no macro of ours may write the impl.
impl TryFrom<u8> for Kind {
    type Error = UnknownKind;

    ghost try_from_gives = { Decodes };

    fn try_from(octet: u8) -> Result<Kind, UnknownKind> {
        match octet {
            0x0 => Ok(Kind::Data),
            0x3 => Ok(Kind::ResetStream),
            0x4 => Ok(Kind::Settings),
            0x8 => Ok(Kind::WindowUpdate),
            0x10 => Ok(Kind::PriorityUpdate),
            _ => Err(UnknownKind(octet)),
        }
    }
}
