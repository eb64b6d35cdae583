// The kinds of frames, by the numbers of the format.
ghost use Rattle.std.specs.Prelude.{◌≡◌};
ghost use Rattle.frames.specs.Frames.{kind_of, known, payload_length};

use crate::fault::FrameFault;

// What a frame asks for, by its first byte.
#[derive(Debug, Clone, Copy, PartialEq, Eq)]
pub enum Kind {
    Make = 0x01,
    Join = 0x02,
    Part = 0x03,
    Strike = 0x04,
    Lift = 0x05,
}

// The kind with a number, where one has it.
impl TryFrom<u8> for Kind {
    type Error = FrameFault;

    ghost try_from_gives = { λ byte kind. kind ≡ known (kind_of byte) };

    fn try_from(byte: u8) -> Result<Kind, FrameFault> {
        match byte {
            0x01 => Ok(Kind::Make),
            0x02 => Ok(Kind::Join),
            0x03 => Ok(Kind::Part),
            0x04 => Ok(Kind::Strike),
            0x05 => Ok(Kind::Lift),
            _ => Err(FrameFault::UnknownKind),
        }
    }
}

impl Kind {
    // How many bytes follow the kind.
    pub fn payload_length(self) -> usize
        ensures { result ≡ payload_length self }
    {
        match self {
            Kind::Make => 1,
            _ => 2,
        }
    }
}
