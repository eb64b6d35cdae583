// Hexadecimal text: its digits, and the bytes that it stands for.
ghost use Rattle.std.specs.Prelude.{◌≡◌, ℕ, ◌<◌, length};
ghost use Rattle.frames.specs.Hex.{digit, digit_value, bytes_of, bad_place, digits_reply};

use crate::bytes::Bytes;
use crate::fault::DigitFault;

// The value of a hexadecimal digit in either case. Each range is asked for by itself, which takes one
// comparison; a `match` over all three compares with both bounds. Each digit of a good line comes here twice.
fn digit(c: u8) -> Option<u8>
    ensures { result ≡ digit c }
{
    if matches!(c, b'0'..=b'9') {
        Some(c - b'0')
    } else if matches!(c, b'A'..=b'F') {
        Some(c - b'A' + 10)
    } else if matches!(c, b'a'..=b'f') {
        Some(c - b'a' + 10)
    } else {
        None
    }
}

// The value of a digit, and 0 of any other character.
fn digit_value(c: u8) -> u8
    ensures value { result ≡ digit_value c }
    ensures small { result < 16 }
{
    digit(c).unwrap_or(0)
}

// The place, from 0, of the first character that is no digit.
fn bad_place(line: &[u8]) -> Option<usize>
    ensures { result ≡ bad_place line.now }
{
    line.iter().position(|c| digit(*c).is_none())
}

// Whether the characters of a line are bytes in hexadecimal, two digits each.
pub fn check_digits(line: &[u8]) -> Result<(), DigitFault>
    ensures { result ≡ digits_reply line.now }
{
    match bad_place(line) {
        Some(place) => Err(DigitFault::BadCharacter(place + 1)),
        None if line.len() % 2 == 1 => Err(DigitFault::OddCount(line.len())),
        None => Ok(()),
    }
}

// A stretch of an input line, read as bytes in hexadecimal, and its place in the line.
#[derive(Drop)]
pub struct Hex<'a> {
    pub text: &'a [u8],
    pub place: usize,
}

// A character that is no digit counts as 0, so that reading needs no promise; the reader of
// frames has looked at every character before.
impl<'a> Bytes for Hex<'a> {
    ghost bytes = { λ h. bytes_of h.text.now };

    fn count(&self) -> usize {
        self.text.len() / 2
    }

    // A match and no `map_or`, with which the goal of the return stays open.
    fn at(&self, i: usize) -> u8 {
        match self.text.as_chunks::<2>().0.get(i) {
            Some([high, low]) => 16 * digit_value(*high) + digit_value(*low),
            None => 0,
        }
    }
}
