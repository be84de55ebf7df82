// Reads printable text as bytes: `\\`, `\r`, `\n` and `\xHH` stand for what is not printable ASCII.
ghost use Rattle.std.specs.Prelude.{◌≡◌, ◌<◌, IfSome, IfOk, vec_items};
ghost use Rattle.std.specs.Option.{option_map};
ghost use Rattle.halls.specs.Escapes.{letter_of, nibble_of, wants, gives, turn_of, Sane, decoded};
ghost use Rattle.halls.specs.declared.escapes.Wanted.TheVariants.{Any};

use std::alloc::{AllocError, Global};

// What the next byte of a text may be: any that begins something, what follows a backslash, or one of two hexadecimal digits.
// A state between bytes, which the definition of decoding has too; a closure for what comes next would have to be handed out.
#[derive(Clone, Copy)]
pub enum Wanted {
    Any,
    Escape,
    High,
    Low(u8),
}

// What one byte of a text brings: what is wanted next, and the byte that is whole, if one is.
#[derive(Clone, Copy)]
pub struct Turn {
    pub next: Wanted,
    pub byte: Option<u8>,
}

// Nothing yet.
fn wanting(next: Wanted) -> Turn
    ensures { result ≡ wants next }
{
    Turn { next, byte: None }
}

// A whole byte.
fn giving(byte: u8) -> Turn
    ensures { result ≡ gives byte }
{
    Turn {
        next: Wanted::Any,
        byte: Some(byte),
    }
}

// The byte that stands behind a backslash as a letter.
fn letter(byte: u8) -> Option<u8>
    ensures { result ≡ letter_of byte }
{
    match byte {
        b'\\' => Some(b'\\'),
        b'r' => Some(b'\r'),
        b'n' => Some(b'\n'),
        _ => None,
    }
}

// The value of a hexadecimal digit.
fn nibble(byte: u8) -> Option<u8>
    ensures value { result ≡ nibble_of byte }
    ensures bound { IfSome result (λ n. n < 16) }
{
    char::from(byte).to_digit(16).map(|digit| digit as u8)
}

// What one byte of a text brings; none where it is not allowed.
fn turn_at(wanted: Wanted, byte: u8) -> Option<Turn>
    requires { Sane wanted }
    ensures value { result ≡ turn_of wanted byte }
    ensures sane { IfSome result (λ t. Sane t.next) }
{
    match (wanted, byte) {
        (Wanted::Any, b'\\') => Some(wanting(Wanted::Escape)),
        (Wanted::Any, 0x20..=0x7E) => Some(giving(byte)),
        (Wanted::Any, _) => None,
        (Wanted::Escape, b'x') => Some(wanting(Wanted::High)),
        (Wanted::Escape, _) => letter(byte).map(giving),
        (Wanted::High, _) => Some(wanting(Wanted::Low(nibble(byte)?))),
        (Wanted::Low(high), _) => Some(giving(16 * high + nibble(byte)?)),
    }
}

// The bytes that a text stands for; none where it is not well formed.
pub fn unescaped(heap: Global, text: &[u8]) -> Result<Option<Vec<u8>>, AllocError>
    ensures { IfOk result (λ o. option_map vec_items o ≡ decoded Any text.now) }
{
    let mut bytes = Vec::new(heap);
    let mut wanted = Wanted::Any;
    for byte in text {
        let Some(turn) = turn_at(wanted, *byte) else {
            return Ok(None);
        };
        if let Some(byte) = turn.byte {
            bytes.push(byte)?;
        }
        wanted = turn.next;
    }
    match wanted {
        Wanted::Any => Ok(Some(bytes)),
        _ => Ok(None),
    }
}
