// Replies as lines of capital hexadecimal.
ghost use Rattle.std.specs.Prelude.{◌≡◌, ℕ, ◌+◌, ◌*◌, ◌<◌, ◌≤◌, List, [], ◌∷◌, ◌++◌, length, Err, OnOk, OnErr, IsOk, vec_len, vec_capacity};
ghost use Rattle.frames.specs.Text.{capital, hex_byte, hex_text, two_bytes, reply_bytes, reply_text, FrontPut};

use crate::fault::SessionFault;
use model::Answer;
use std::alloc::AllocError;

// What a refusal begins with.
const REFUSED: u8 = 0xFF;

// The character of a digit; see `write_byte` for why it is written out.
fn capital(d: u8) -> u8
    requires { d < 16 }
    ensures { result ≡ capital d }
{
    if d < 10 { b'0' + d } else { b'A' + (d - 10) }
}

// Writes one byte: room for both characters first, so that neither stands there without the other, and
// then each is put in its place. Not by `write!`, whose error on a `Vec<u8>` is none of the allocator's.
fn write_byte(out: &mut Vec<u8>, b: u8) -> Result<(), AllocError>
    ensures items { OnOk result (out.new.items ≡ out.old.items ++ hex_byte b) }
    ensures failed { OnErr result (out.new.items ≡ out.old.items) }
    ensures len { OnOk result (vec_len out.new ≡ vec_len out.old + 2) }
    ensures capacity { vec_capacity out.old ≤ vec_capacity out.new }
    ensures succeeds { vec_len out.old + 2 ≤ vec_capacity out.old → IsOk result }
{
    out.reserve(2)?;
    out.push_reserved(capital(b / 16));
    out.push_reserved(capital(b % 16));
    Ok(())
}

// Writes bytes one after the other.
fn write_bytes(out: &mut Vec<u8>, bytes: &[u8]) -> Result<(), AllocError>
    ensures items { OnOk result (out.new.items ≡ out.old.items ++ hex_text bytes.now) }
    ensures failed { OnErr result (FrontPut out.old.items (hex_text bytes.now) out.new.items) }
    ensures len { OnOk result (vec_len out.new ≡ vec_len out.old + 2 * length bytes.now) }
    ensures capacity { vec_capacity out.old ≤ vec_capacity out.new }
    ensures succeeds { vec_len out.old + 2 * length bytes.now ≤ vec_capacity out.old → IsOk result }
{
    for b in bytes {
        write_byte(out, *b)?;
    }
    Ok(())
}

// A number in two bytes, the high one first. What is above them is dropped.
fn two_bytes(x: usize) -> [u8; 2]
    ensures { result ≡ two_bytes x }
{
    ((x % 0x1_0000) as u16).to_be_bytes()
}

// The bytes of a refusal.
fn fault_bytes(line: usize, fault: SessionFault) -> [u8; 7]
    ensures { result ≡ reply_bytes line (Err fault) }
{
    let [line_high, line_low] = two_bytes(line);
    let [detail_high, detail_low] = two_bytes(fault.detail());
    [
        REFUSED,
        fault.refusal().into(),
        fault.layer().into(),
        line_high,
        line_low,
        detail_high,
        detail_low,
    ]
}

// Writes the bytes of the reply to a line of input.
fn write_body(
    out: &mut Vec<u8>,
    line: usize,
    reply: Result<Answer, SessionFault>,
) -> Result<(), AllocError>
    ensures items { OnOk result (out.new.items ≡ out.old.items ++ hex_text (reply_bytes line reply)) }
    ensures failed { OnErr result (FrontPut out.old.items (hex_text (reply_bytes line reply)) out.new.items) }
    ensures len { OnOk result (vec_len out.new ≡ vec_len out.old + 2 * length (reply_bytes line reply)) }
    ensures capacity { vec_capacity out.old ≤ vec_capacity out.new }
    ensures succeeds { vec_len out.old + 2 * length (reply_bytes line reply) ≤ vec_capacity out.old → IsOk result }
{
    match reply {
        Ok(answer) => write_byte(out, answer.into()),
        Err(fault) => write_bytes(out, &fault_bytes(line, fault)),
    }
}

// Writes the reply to a line of input, with its line end.
pub fn write_reply(
    out: &mut Vec<u8>,
    line: usize,
    reply: Result<Answer, SessionFault>,
) -> Result<(), AllocError>
    ensures items { OnOk result (out.new.items ≡ out.old.items ++ reply_text line reply) }
    // Without memory for all of the text, a front part of it stands behind what was there.
    ensures failed { OnErr result (FrontPut out.old.items (reply_text line reply) out.new.items) }
    ensures len { OnOk result (vec_len out.new ≡ vec_len out.old + length (reply_text line reply)) }
    ensures capacity { vec_capacity out.old ≤ vec_capacity out.new }
    ensures succeeds { vec_len out.old + length (reply_text line reply) ≤ vec_capacity out.old → IsOk result }
{
    write_body(out, line, reply)?;
    out.push(b'\n')?;
    Ok(())
}
