// Parts of a byte run between its blanks.
ghost use Rattle.std.specs.Prelude.{◌≡◌, ◌≤◌, length};
ghost use Rattle.std.specs.List.{prefix_len, suffix_len};
ghost use Rattle.command.specs.Understood.{gap, past, closed};

use crate::reader::{XOFF, XON};

// The largest byte that counts as a blank.
const BLANK: u8 = b' ';

// Whether a byte is a blank that may stand in a command.
fn is_blank(byte: u8) -> bool
    ensures { result ≡ gap byte }
{
    byte <= BLANK && byte != XON && byte != XOFF
}

// How many blanks `bytes` begins with.
fn indent(bytes: &[u8]) -> usize
    ensures value { result ≡ prefix_len gap bytes.now }
    ensures within { result ≤ length bytes.now }
{
    bytes.iter().take_while(|b| is_blank(**b)).count()
}

// How many blanks `bytes` ends with.
fn outdent(bytes: &[u8]) -> usize
    ensures value { result ≡ suffix_len gap bytes.now }
    ensures within { result ≤ length bytes.now }
{
    bytes.iter().rev().take_while(|b| is_blank(**b)).count()
}

// The part from the first byte that is no blank.
pub(crate) fn skip(bytes: &[u8]) -> &[u8]
    ensures value { result.now ≡ past bytes.now }
    ensures within { length result.now ≤ length bytes.now }
{
    &bytes[indent(bytes)..]
}

// The part up to the last byte that is no blank.
pub(crate) fn chop(bytes: &[u8]) -> &[u8]
    ensures { result.now ≡ closed bytes.now }
{
    &bytes[..bytes.len() - outdent(bytes)]
}
