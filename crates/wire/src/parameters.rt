// The settings that are known, and the identifiers that stand for them.
ghost use Rattle.std.specs.Prelude.{◌≡◌};
ghost use Rattle.wire.specs.Parameters.{identifier_of, Decodes};

// A setting that a sender follows; any other is passed over.
#[derive(Clone, Copy, PartialEq, Eq, Debug)]
pub enum Parameter {
    // SETTINGS_INITIAL_WINDOW_SIZE, of RFC 9113.
    InitialWindow = 0x4,
    // SETTINGS_MAX_FRAME_SIZE, of RFC 9113.
    FrameSize = 0x5,
}

// An identifier that stands for no known setting.
#[derive(Clone, Copy, PartialEq, Eq, Debug)]
pub struct UnknownParameter(pub u16);

impl Parameter {
    // The identifier that stands for the setting in a frame.
    pub fn identifier(self) -> u16
        ensures { result ≡ identifier_of self }
    {
        self as u16
    }
}

impl TryFrom<u16> for Parameter {
    type Error = UnknownParameter;

    ghost try_from_gives = { Decodes };

    fn try_from(identifier: u16) -> Result<Parameter, UnknownParameter> {
        match identifier {
            0x4 => Ok(Parameter::InitialWindow),
            0x5 => Ok(Parameter::FrameSize),
            _ => Err(UnknownParameter(identifier)),
        }
    }
}
