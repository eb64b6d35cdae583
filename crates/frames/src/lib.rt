// The frame format: hexadecimal lines in, hexadecimal lines out. Reading and writing are
// proved equal to the definitions in specs/. A frame comes in through three layers, each
// with a fault of its own: digits, frame, call.
#![tactic(auto)]

mod bytes;
mod fault;
mod frame;
mod hex;
mod kind;
mod text;

pub use bytes::Bytes;
pub use fault::{DigitFault, FrameFault, Layer, SessionFault};
pub use frame::{Frame, call_of, frame_kind, read_call, read_frame};
pub use hex::{Hex, check_digits};
pub use kind::Kind;
pub use text::write_reply;
