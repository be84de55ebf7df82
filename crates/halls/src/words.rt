// The words of a line, and the numbers among them.
ghost use Rattle.std.specs.Prelude.{◌≡◌, ◌^◌, ◌<◌, ◌≤◌, length, pos, neg_ℤ, IfSome};
ghost use Rattle.halls.specs.Words.{place_of, parts_at, parts_seen, number_of, limited, signed_of, Fitting};

// Where a byte first stands.
fn position(text: &[u8], byte: u8) -> Option<usize>
    ensures value { result ≡ place_of byte text.now }
    ensures within { IfSome result (λ n. n < length text.now) }
{
    text.iter().position(|b| *b == byte)
}

// What stands before the first such byte, and what behind it.
pub fn parted(text: &[u8], byte: u8) -> Option<(&[u8], &[u8])>
    ensures value { parts_seen result ≡ parts_at text.now (place_of byte text.now) }
    ensures shorter { IfSome result (λ p. length p.1.now < length text.now) }
{
    let at = position(text, byte)?;
    Some((&text[..at], &text[at + 1..]))
}

// A decimal number of one digit or more, unless it is larger than the most.
fn number_within(word: &[u8], most: u64) -> Option<u64>
    requires { most < 2 ^ 60 }
    ensures value { result ≡ limited most (number_of word.now) }
    ensures bound { IfSome result (λ n. n ≤ most) }
{
    if word.is_empty() {
        return None;
    }
    let mut value = 0u64;
    for byte in word {
        if !byte.is_ascii_digit() {
            return None;
        }
        value = 10 * value + u64::from(*byte - b'0');
        if value > most {
            return None;
        }
    }
    Some(value)
}

// A decimal number of one digit or more, of a type of at most 32 bits.
fn number<N: TryFrom<u64>>(word: &[u8]) -> Option<N>
where
    N::Error: Drop,
    ensures { Fitting N.try_from_gives (limited 4294967295 (number_of word.now)) result }
{
    N::try_from(number_within(word, 4_294_967_295)?).ok()
}

// A number of 8 bits.
pub fn byte_number(word: &[u8]) -> Option<u8>
    ensures { result ≡ limited 255 (number_of word.now) }
{
    number(word)
}

// A number of 16 bits.
pub fn short_number(word: &[u8]) -> Option<u16>
    ensures { result ≡ limited 65535 (number_of word.now) }
{
    number(word)
}

// A number of bytes for answers: at most 65,536.
pub fn room_number(word: &[u8]) -> Option<usize>
    ensures { result ≡ limited 65536 (number_of word.now) }
{
    number_within(word, 65_536).map(|room| room as usize)
}

// The negative of a size of at most 31 bits and one.
fn negative(size: u64) -> i32
    requires { size ≤ 2147483648 }
    ensures { result ≡ neg_ℤ (pos size) }
{
    (-(size as i64)) as i32
}

// A number of 32 bits, with '-' where it is negative.
pub fn signed_number(word: &[u8]) -> Option<i32>
    ensures { result ≡ signed_of word.now }
{
    match word {
        [b'-', digits @ ..] => number_within(digits, 2_147_483_648).map(negative),
        _ => number_within(word, 2_147_483_647).map(|size| size as i32),
    }
}
