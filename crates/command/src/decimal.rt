// Reads a parameter's number.
ghost use Rattle.std.specs.Prelude.{◌≡◌, ℕ, ◌+◌, ◌*◌, ◌^◌, ◌≤◌, Bool, length, IfSome, MatchOption, fold};
ghost use Rattle.std.specs.Option.{option_map};
ghost use Rattle.std.specs.Char.{is_ascii_digit};
ghost use Rattle.std.specs.List.{prefix_len};
ghost use Rattle.command.specs.Meanings.{ExactValue};
ghost use Rattle.command.specs.Numbers.{more, front, back, numeral, power_of, powered as powered_of, fraction as fraction_of, unsigned as unsigned_of, signed as signed_of, sign as sign_of, size as size_of, number_of, capped, clamped};

// A number has at most this many bytes.
const LONGEST: usize = 10;

// Past this a number is answered as this: it lies outside every limit of 32 bits.
const CAP: u64 = 1_000_000_000_000;

// The largest power of ten that makes a difference under `CAP`.
const SHIFT: u32 = 12;

// A number as it is written: its digits, of which so many stand behind the point, and the power of ten.
#[derive(Clone, Copy)]
pub(crate) struct Numeral {
    pub minus: bool,
    pub digits: u64,
    pub places: u32,
    pub exponent: u32,
}

// The number that the leading digits of `text` write behind those of `start`, and what follows them.
#[tactic(auto, using(crate::proofs::Leading::other_front, crate::proofs::Leading::other_back))]
fn leading_digits(start: u64, text: &[u8]) -> (u64, &[u8])
    requires { (start + 23) * 10 ^ length text.now ≤ 23 * 10 ^ 10 }
    ensures value { result.0 ≡ fold more start (front text.now) }
    ensures rest { result.1.now ≡ back text.now }
    ensures count { length result.1.now + prefix_len is_ascii_digit text.now ≡ length text.now }
    ensures bound { (result.0 + 23) * 10 ^ length result.1.now ≤ 23 * 10 ^ 10 }
{
    let mut value = start;
    let mut rest = text;
    while let [digit @ b'0'..=b'9', behind @ ..] = rest {
        value = 10 * value + u64::from(digit - b'0');
        rest = behind;
    }
    (value, rest)
}

// The power of ten behind e or E: one or two digits.
fn power(text: &[u8]) -> Option<u32>
    ensures { result ≡ power_of text.now }
{
    match text {
        [one @ b'0'..=b'9'] => Some(u32::from(one - b'0')),
        [ten @ b'0'..=b'9', one @ b'0'..=b'9'] => {
            Some(10 * u32::from(ten - b'0') + u32::from(one - b'0'))
        }
        _ => None,
    }
}

// The power of ten that stands behind the digits: 0 where nothing does.
fn exponent(text: &[u8]) -> Option<u32>
    ensures { (minus : Bool) (digits places : ℕ) → powered_of minus digits places text.now ≡ option_map (numeral minus digits places) result }
{
    match text {
        [] => Some(0),
        [b'e' | b'E', behind @ ..] => power(behind),
        _ => None,
    }
}

// The number that the digits behind a point, at least one, write behind those of `whole`, how many they are, and what
// follows them; without a point it is `whole`.
fn decimals(whole: u64, text: &[u8]) -> Option<(u64, usize, &[u8])>
    requires bound { (whole + 23) * 10 ^ length text.now ≤ 23 * 10 ^ 10 }
    requires within { length text.now ≤ 10 }
    ensures value { (minus : Bool) → MatchOption result (fraction_of minus whole text.now ≡ None) (λ p. fraction_of minus whole text.now ≡ powered_of minus p.0 p.1 p.2.now) }
    ensures few { IfSome result (λ p. p.1 ≤ 10) }
{
    let [b'.', behind @ ..] = text else {
        return Some((whole, 0, text));
    };
    let (digits, rest) = leading_digits(whole, behind);
    let places = behind.len() - rest.len();
    if places == 0 {
        return None;
    }
    Some((digits, places, rest))
}

// A number behind its sign: a digit is needed there.
#[tactic(auto, unfolding(crate::specs::Numbers::unsigned))]
fn unsigned(minus: bool, text: &[u8]) -> Option<Numeral>
    requires { length text.now ≤ 10 }
    ensures value { result ≡ unsigned_of minus text.now }
    ensures few { IfSome result (λ n. n.places ≤ 10) }
{
    let (whole, behind) = leading_digits(0, text);
    if behind.len() == text.len() {
        return None;
    }
    let (digits, places, rest) = decimals(whole, behind)?;
    let exponent = exponent(rest)?;
    Some(Numeral {
        minus,
        digits,
        places: places as u32,
        exponent,
    })
}

// Whether a minus stands first, and what follows the sign.
fn signed(text: &[u8]) -> (bool, &[u8])
    ensures value { unsigned_of result.0 result.1.now ≡ signed_of text.now }
    ensures within { length result.1.now ≤ length text.now }
{
    match text {
        [b'-', rest @ ..] => (true, rest),
        [b'+', rest @ ..] => (false, rest),
        _ => (false, text),
    }
}

impl Numeral {
    // The size of digits * 10^exponent / 10^places where that is whole, capped.
    #[tactic(auto, using(crate::proofs::Sizes::tens, crate::proofs::Sizes::size_same, crate::proofs::Sizes::size_up, crate::proofs::Sizes::size_down, crate::proofs::Sizes::cap_shift))]
    fn size(self) -> Option<u64>
        requires { self.places ≤ 10 }
        ensures value { result ≡ option_map capped (size_of self.digits self.places self.exponent) }
        ensures bound { IfSome result (λ n. n ≤ 1000000000000) }
    {
        if self.places == self.exponent {
            return Some(self.digits.min(CAP));
        }
        if self.places < self.exponent {
            let shift = (self.exponent - self.places).min(SHIFT);
            return Some(self.digits.saturating_mul(10u64.pow(shift)).min(CAP));
        }
        let by = 10u64.pow(self.places - self.exponent);
        (self.digits % by == 0).then_some((self.digits / by).min(CAP))
    }
}

// A size with its sign.
fn with_sign(minus: bool, size: u64) -> i64
    requires { size ≤ 1000000000000 }
    ensures { result ≡ sign_of minus size }
{
    if minus { -(size as i64) } else { size as i64 }
}

// The whole number that `text` writes, clamped at a million million on both sides; none where it writes no whole number.
pub fn number(text: &[u8]) -> Option<i64>
    ensures value { result ≡ option_map clamped (number_of text.now) }
    ensures exact { ExactValue text.now }
{
    if text.len() > LONGEST {
        return None;
    }
    let (minus, rest) = signed(text);
    let n = unsigned(minus, rest)?;
    Some(with_sign(n.minus, n.size()?))
}
