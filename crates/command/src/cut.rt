// Cuts a byte run at its first end character.
ghost use Rattle.std.specs.Prelude.{◌≡◌, ◌<◌, length, Some, IfSome};
ghost use Rattle.command.specs.Cuts.{first_of, cut_of, seen, Cuts};

use fault::{Cause, Fault};
use std::simd::prelude::*;

const LINE_FEED: u8 = 0x0A;

const SEMICOLON: u8 = b';';

// So many bytes are looked at together: few commands have more.
const NEAR: usize = 16;

// Where the first byte stands that is `x` or `y`, if one of the first sixteen is; none where there are fewer.
fn near(bytes: &[u8], x: u8, y: u8) -> Option<usize>
    ensures { IfSome result (λ n. (first_of x y bytes.now ≡ Some n) × (n < length bytes.now)) }
{
    if bytes.len() < NEAR {
        return None;
    }
    let first = u8x16::from_slice(bytes);
    let found = first.simd_eq(u8x16::splat(x)) | first.simd_eq(u8x16::splat(y));
    match found.to_bitmask() {
        0 => None,
        places => Some(places.trailing_zeros() as usize),
    }
}

// The same, wherever it stands.
#[tactic(auto, unfolding(crate::specs::Cuts::first_of))]
fn anywhere(bytes: &[u8], x: u8, y: u8) -> Option<usize>
    ensures value { result ≡ first_of x y bytes.now }
    ensures within { IfSome result (λ n. n < length bytes.now) }
{
    bytes.iter().position(|b| *b == x || *b == y)
}

// Where the first byte stands that is `x` or `y`.
pub(crate) fn position(bytes: &[u8], x: u8, y: u8) -> Option<usize>
    ensures value { result ≡ first_of x y bytes.now }
    ensures within { IfSome result (λ n. n < length bytes.now) }
{
    near(bytes, x, y).or_else(|| anywhere(bytes, x, y))
}

// The command before the first line feed or ';', as a part of `bytes`, and how many bytes it uses with that end character.
pub fn split(bytes: &[u8]) -> Result<(&[u8], usize), Fault>
    ensures value { seen result ≡ cut_of bytes.now }
    ensures law { Cuts bytes.now (seen result) }
{
    let n = position(bytes, LINE_FEED, SEMICOLON).ok_or(Cause::NoEnd.at(bytes.len()))?;
    Ok((&bytes[..n], n + 1))
}
