// How one byte is written as printable text.
ghost use Rattle.std.specs.Prelude.{◌≡◌, ◌<◌, Some};
ghost use Rattle.std.specs.Str.{encode_utf8_all};
ghost use Rattle.halls.specs.Escapes.{glyph_of, spelled, text_of, ReadsBack};

use std::fmt;

// A byte as itself, or as a backslash with a letter, or as `\x` with two hexadecimal digits.
#[derive(Clone, Copy)]
pub enum Spelling {
    Itself(u8),
    Letter(u8),
    Digits(u8, u8),
}

// The hexadecimal digit of a number.
// `from_digit` gives lower case, and a char.
fn glyph(nibble: u8) -> u8
    requires { nibble < 16 }
    ensures { result ≡ glyph_of nibble }
{
    if nibble < 10 {
        b'0' + nibble
    } else {
        b'A' - 10 + nibble
    }
}

// How a byte is written: what is written for bytes is read as those bytes.
impl From<u8> for Spelling {
    ghost from_gives = { λ byte s. s ≡ spelled byte };

    #[tactic(auto, using(crate::proofs::ReadBack::read_back))]
    fn from(byte: u8) -> Spelling
        ensures value { result ≡ spelled byte }
        ensures law { ReadsBack }
    {
        match byte {
            b'\\' => Spelling::Letter(b'\\'),
            b'\r' => Spelling::Letter(b'r'),
            b'\n' => Spelling::Letter(b'n'),
            0x20..=0x7E => Spelling::Itself(byte),
            _ => Spelling::Digits(glyph(byte / 16), glyph(byte % 16)),
        }
    }
}

impl fmt::Display for Spelling {
    ghost output = { λ s. Some (encode_utf8_all (text_of s)) };

    fn fmt<W: fmt::Write>(&self, f: &mut fmt::Formatter<W>) -> fmt::Result {
        match self {
            Spelling::Itself(byte) => write!(f, "{}", char::from(*byte)),
            Spelling::Letter(letter) => write!(f, "\\{}", char::from(*letter)),
            Spelling::Digits(high, low) => {
                write!(f, "\\x{}{}", char::from(*high), char::from(*low))
            }
        }
    }
}
