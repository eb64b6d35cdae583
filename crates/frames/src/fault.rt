// What can be wrong with a line of input: one fault a layer, the outer one holding the inner.
ghost use Rattle.std.specs.Prelude.{◌≡◌};
ghost use Rattle.frames.specs.Faults.{layer_number, fault_layer, fault_refusal, fault_detail};
ghost use Rattle.frames.specs.declared.fault.FrameFault.TheVariants.{Digits};
ghost use Rattle.frames.specs.declared.fault.SessionFault.TheVariants.{Frame, Call};

use model::Refusal;

// The layers that a fault can rise from, by their numbers.
#[derive(Debug, Clone, Copy, PartialEq, Eq)]
pub enum Layer {
    Digits = 1,
    Frame = 2,
    Call = 3,
}

// The number of a layer.
impl From<Layer> for u8 {
    ghost from_gives = { λ layer number. number ≡ layer_number layer };

    fn from(layer: Layer) -> u8 {
        layer as u8
    }
}

// The characters of a line are no bytes in hexadecimal.
#[derive(Debug, Clone, Copy, PartialEq, Eq)]
pub enum DigitFault {
    // The column, from 1, of the first character that is no digit.
    BadCharacter(usize),
    // All are digits, and there is this odd number of them.
    OddCount(usize),
}

// The bytes of a line are no frame.
#[derive(Debug, Clone, Copy, PartialEq, Eq)]
pub enum FrameFault {
    Digits(DigitFault),
    Empty,
    UnknownKind,
    WrongLength,
}

// A line of a session is refused.
#[derive(Debug, Clone, Copy, PartialEq, Eq)]
pub enum SessionFault {
    Frame(FrameFault),
    Call(Refusal),
}

// This and the next two are written out and not derived: each says which fault comes of which.
impl From<DigitFault> for FrameFault {
    ghost from_gives = { λ e r. r ≡ Digits e };

    fn from(e: DigitFault) -> FrameFault {
        FrameFault::Digits(e)
    }
}

impl From<FrameFault> for SessionFault {
    ghost from_gives = { λ e r. r ≡ Frame e };

    fn from(e: FrameFault) -> SessionFault {
        SessionFault::Frame(e)
    }
}

impl From<Refusal> for SessionFault {
    ghost from_gives = { λ e r. r ≡ Call e };

    fn from(e: Refusal) -> SessionFault {
        SessionFault::Call(e)
    }
}

impl SessionFault {
    // The layer that the fault rose from.
    pub fn layer(self) -> Layer
        ensures { result ≡ fault_layer self }
    {
        match self {
            SessionFault::Frame(FrameFault::Digits(_)) => Layer::Digits,
            SessionFault::Frame(_) => Layer::Frame,
            SessionFault::Call(_) => Layer::Call,
        }
    }

    // The refusal that it prints.
    pub fn refusal(self) -> Refusal
        ensures { result ≡ fault_refusal self }
    {
        match self {
            SessionFault::Frame(FrameFault::Digits(_)) => Refusal::BadDigits,
            SessionFault::Frame(_) => Refusal::BadFrame,
            SessionFault::Call(refusal) => refusal,
        }
    }

    // Where the digits are wrong: the column, or the odd count. 0 of the other layers.
    pub fn detail(self) -> usize
        ensures { result ≡ fault_detail self }
    {
        match self {
            SessionFault::Frame(FrameFault::Digits(DigitFault::BadCharacter(column))) => column,
            SessionFault::Frame(FrameFault::Digits(DigitFault::OddCount(count))) => count,
            SessionFault::Frame(_) => 0,
            SessionFault::Call(_) => 0,
        }
    }
}
