// The answers that are no measured value.
ghost use Rattle.std.specs.Prelude.{◌≡◌, length};
ghost use Rattle.value.specs.Plain.{plain_text, line};
ghost use Rattle.value.specs.Written.{granted, written};

use crate::placing::place;
use crate::signed::signed;
use figures::digits;

const CRLF: &[u8; 2] = b"\r\n";

// An answer in a line of its own.
#[derive(Clone, Copy)]
pub enum Plain {
    // "0": a command was obeyed
    Done,
    // "?": a command was refused
    Refused,
    Digit(u8),
    ThreeDigits(u8),
    // the sign and eight digits
    Signed(i64),
}

// Writes the text and CR LF, or nothing where they have no room: how many bytes were written.
pub fn write_line(text: &[u8], out: &mut [u8]) -> usize
    ensures count { result ≡ length (granted out.old (line text.now)) }
    ensures buffer { out.new ≡ written out.old (line text.now) }
{
    if (out.len() as u128) < text.len() as u128 + 2 {
        return 0;
    }
    let n = place(text, out);
    n + place(CRLF, &mut out[n..])
}

impl Plain {
    // Writes the answer and CR LF, or nothing where they have no room: how many bytes were written.
    pub fn write(self, out: &mut [u8]) -> usize
        ensures count { result ≡ length (granted out.old (line (plain_text self))) }
        ensures buffer { out.new ≡ written out.old (line (plain_text self)) }
    {
        match self {
            Plain::Done => write_line(b"0", out),
            Plain::Refused => write_line(b"?", out),
            Plain::Digit(n) => write_line(&digits::<1>(u64::from(n)), out),
            Plain::ThreeDigits(n) => write_line(&digits::<3>(u64::from(n)), out),
            Plain::Signed(value) => write_line(&signed::<9>(value), out),
        }
    }
}
