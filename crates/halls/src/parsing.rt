// Reads one line of a script.
ghost use Rattle.std.specs.Prelude.{◌≡◌, IfOk};
ghost use Rattle.std.specs.Option.{option_map};
ghost use Rattle.halls.specs.Verbs.{verb_of, kind_of};
ghost use Rattle.halls.specs.Lines.{asked, talked, fit_of, set_of, record_of, join_of, roomy_of, roomy_seen, talk_of, asked_by, opening_of, opening_seen, request_of, request_seen, blank, idle};

use crate::escapes::unescaped;
use crate::requests::{Kind, Reason, Request, Talk};
use crate::stages::Stage;
use crate::words::{byte_number, parted, room_number, short_number, signed_number};
use bank::Record;
use junction::Join;
use std::alloc::{AllocError, Global};

// The words that requests begin with.
// A verb is told before the rest of its line is read, since an unknown one is refused before a malformed rest.
#[derive(Clone, Copy)]
enum Verb {
    Bank,
    Fit,
    Set,
    Record,
    Join,
    Gauges,
    Waiting,
    Take,
    Obey,
    Serve,
    Split,
}

impl TryFrom<&[u8]> for Verb {
    type Error = Reason;

    ghost try_from_gives = { λ word r. r ≡ verb_of word.now };

    fn try_from(word: &[u8]) -> Result<Verb, Reason> {
        match word {
            b"bank" => Ok(Verb::Bank),
            b"fit" => Ok(Verb::Fit),
            b"set" => Ok(Verb::Set),
            b"record" => Ok(Verb::Record),
            b"join" => Ok(Verb::Join),
            b"gauges" => Ok(Verb::Gauges),
            b"waiting" => Ok(Verb::Waiting),
            b"take" => Ok(Verb::Take),
            b"obey" => Ok(Verb::Obey),
            b"serve" => Ok(Verb::Serve),
            b"split" => Ok(Verb::Split),
            _ => Err(Reason::Unknown),
        }
    }
}

impl TryFrom<&[u8]> for Kind {
    type Error = Reason;

    ghost try_from_gives = { λ word r. r ≡ kind_of word.now };

    fn try_from(word: &[u8]) -> Result<Kind, Reason> {
        match word {
            b"dials" => Ok(Kind::Dials),
            b"recording" => Ok(Kind::Recording),
            _ => Err(Reason::Malformed),
        }
    }
}

// PORT FACTOR.
fn fit(rest: &[u8]) -> Option<Request>
    ensures { option_map asked result ≡ fit_of rest.now }
{
    let (port, thousandths) = parted(rest, b' ')?;
    Some(Request::Fit {
        port: byte_number(port)?,
        thousandths: short_number(thousandths)?,
    })
}

// PORT DIGITS CONVERSIONS.
fn set(rest: &[u8]) -> Option<Request>
    ensures { option_map asked result ≡ set_of rest.now }
{
    let (port, rest) = parted(rest, b' ')?;
    let (digits, conversions) = parted(rest, b' ')?;
    Some(Request::Set {
        port: byte_number(port)?,
        digits: signed_number(digits)?,
        conversions: short_number(conversions)?,
    })
}

// PORT DIGITS.
fn record(rest: &[u8]) -> Option<Request>
    ensures { option_map asked result ≡ record_of rest.now }
{
    let (port, digits) = parted(rest, b' ')?;
    Some(Request::Record(Record {
        port: byte_number(port)?,
        digits: signed_number(digits)?,
    }))
}

// LEVEL BELOW ABOVE.
fn join(rest: &[u8]) -> Option<Request>
    ensures { option_map asked result ≡ join_of rest.now }
{
    let (level, rest) = parted(rest, b' ')?;
    let (below, above) = parted(rest, b' ')?;
    let stage = Stage::of_level(byte_number(level)?)?;
    let join = Join {
        below: byte_number(below)?,
        above: byte_number(above)?,
    };
    Some(Request::Join { stage, join })
}

// ROOM BYTES, the bytes as they are written.
fn roomy(rest: &[u8]) -> Option<(usize, &[u8])>
    ensures { roomy_seen result ≡ roomy_of rest.now }
{
    let (room, text) = parted(rest, b' ')?;
    Some((room_number(room)?, text))
}

// ROOM BYTES.
fn talk(heap: Global, rest: &[u8]) -> Result<Option<Talk>, AllocError>
    ensures { IfOk result (λ o. option_map talked o ≡ talk_of rest.now) }
{
    let Some((room, text)) = roomy(rest) else {
        return Ok(None);
    };
    Ok(unescaped(heap, text)?.map(|bytes| Talk { room, bytes }))
}

// The request of a verb and of what stands behind the space after it; none where that is malformed.
fn request_of(heap: Global, verb: Verb, rest: &[u8]) -> Result<Option<Request>, AllocError>
    ensures { IfOk result (λ o. option_map asked o ≡ asked_by verb rest.now) }
{
    match verb {
        Verb::Bank => Ok(Kind::try_from(rest).ok().map(Request::Bank)),
        Verb::Fit => Ok(fit(rest)),
        Verb::Set => Ok(set(rest)),
        Verb::Record => Ok(record(rest)),
        Verb::Join => Ok(join(rest)),
        Verb::Gauges => Ok(byte_number(rest).map(Request::Gauges)),
        Verb::Waiting => Ok(byte_number(rest).map(Request::Waiting)),
        Verb::Take => Ok(byte_number(rest).map(Request::Take)),
        Verb::Obey => Ok(talk(heap, rest)?.map(Request::Obey)),
        Verb::Serve => Ok(talk(heap, rest)?.map(Request::Serve)),
        Verb::Split => Ok(unescaped(heap, rest)?.map(Request::Split)),
    }
}

// The verb of a line, and what stands behind the space after it. Every request has something behind its first word.
fn opening(line: &[u8]) -> Result<(Verb, &[u8]), Reason>
    ensures { opening_seen result ≡ opening_of line.now }
{
    let Some((word, rest)) = parted(line, b' ') else {
        return Verb::try_from(line).and(Err(Reason::Malformed));
    };
    Ok((Verb::try_from(word)?, rest))
}

// The request of a line, or why it is refused.
pub fn request(heap: Global, line: &[u8]) -> Result<Result<Request, Reason>, AllocError>
    ensures { IfOk result (λ r. request_seen r ≡ request_of line.now) }
{
    match opening(line) {
        Ok((verb, rest)) => Ok(request_of(heap, verb, rest)?.ok_or(Reason::Malformed)),
        Err(reason) => Ok(Err(reason)),
    }
}

// Whether a line is empty, or nothing but spaces.
fn is_blank(line: &[u8]) -> bool
    ensures { result ≡ blank line.now }
{
    line.iter().all(|byte| *byte == b' ')
}

// Whether a line asks for nothing: a comment, or blank.
pub fn is_idle(line: &[u8]) -> bool
    ensures { result ≡ idle line.now }
{
    line.first() == Some(&b'#') || is_blank(line)
}
