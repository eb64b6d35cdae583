// From a line of input to the call that it asks for.
ghost use Rattle.std.specs.Prelude.{◌≡◌, ℕ, ◌+◌, IfOk};
ghost use Rattle.frames.specs.Frames.{kind_read, call_read, frame_read, request};
ghost use Rattle.frames.specs.Views.{view};

use crate::bytes::Bytes;
use crate::fault::FrameFault;
use crate::hex::{Hex, check_digits};
use crate::kind::Kind;
use model::{Call, Vertex};

// A frame: its kind, and its payload where it lies in the input.
#[derive(Drop)]
pub struct Frame<B> {
    pub kind: Kind,
    pub payload: B,
}

// The kind that bytes begin with.
pub fn frame_kind<B: Bytes>(bytes: &B) -> Result<Kind, FrameFault>
    ensures { result ≡ kind_read (B.Bytes.bytes bytes.now) }
{
    if bytes.count() == 0 {
        return Err(FrameFault::Empty);
    }
    Kind::try_from(bytes.at(0))
}

// The call of a frame, once its payload has the length of its kind.
pub fn call_of<B: Bytes>(frame: &Frame<B>) -> Result<Call, FrameFault>
    ensures { result ≡ call_read frame.now.kind (B.Bytes.bytes frame.now.payload) }
{
    let kind = frame.kind;
    if frame.payload.count() != kind.payload_length() {
        return Err(FrameFault::WrongLength);
    }
    let u = Vertex::from(frame.payload.at(0));
    let v = Vertex::from(frame.payload.at(1));
    Ok(match kind {
        Kind::Make => Call::Make(u),
        Kind::Join => Call::Join(u, v),
        Kind::Part => Call::Part(u, v),
        Kind::Strike => Call::Strike(u, v),
        Kind::Lift => Call::Lift(u, v),
    })
}

// The frame in a line of hexadecimal text. Its payload is the very stretch of the line: it begins at
// its place in the line's own memory, an empty one too.
pub fn read_frame<'a>(line: &'a [u8]) -> Result<Frame<Hex<'a>>, FrameFault>
    ensures frame { view result ≡ frame_read line.now }
    ensures part { IfOk result (λ f. f.payload.text.ref_ptr ≡ (line.entry.ref_ptr.0, line.entry.ref_ptr.1 + f.payload.place)) }
{
    check_digits(line)?;
    let kind = frame_kind(&Hex {
        text: line,
        place: 0,
    })?;
    Ok(Frame {
        kind,
        payload: Hex {
            text: &line[2..],
            place: 2,
        },
    })
}

// The call that a line asks for.
pub fn read_call(line: &[u8]) -> Result<Call, FrameFault>
    ensures { result ≡ request line.now }
{
    let frame = read_frame(line)?;
    call_of(&frame)
}
