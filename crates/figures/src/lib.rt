// A number as decimal figures.
#![tactic(auto)]

ghost use Rattle.std.specs.Prelude.{◌≡◌, ◌+◌, ◌/◌, ◌%◌, ◌<◌, [], ◌∷◌};
ghost use Rattle.figures.specs.Figures.{digits};

// The two figures of each number below 100.
static PAIRS: [u8; 200] =
    *b"00010203040506070809101112131415161718192021222324252627282930313233343536373839404142434445464748495051525354555657585960616263646566676869707172737475767778798081828384858687888990919293949596979899";

// The two figures of a number below 100.
fn pair(n: u64) -> &'static [u8]
    requires { n < 100 }
    ensures { result.now ≡ (48 + n / 10) ∷ (48 + n % 10) ∷ [] }
{
    let from = 2 * n as usize;
    &PAIRS[from..from + 2]
}

// The last N decimal figures of a number as text, the high one first.
pub fn digits<const N: usize>(n: u64) -> [u8; N]
    ensures { result ≡ digits N n }
{
    let mut text = [b'0'; N];
    let places = &mut text[..];
    let mut rest = n;
    let mut left = N;
    // Two figures for each division.
    while left >= 2 {
        left -= 2;
        places[left..left + 2].copy_from_slice(pair(rest % 100));
        rest /= 100;
    }
    if left == 1 {
        places[0] = b'0' + (rest % 10) as u8;
    }
    text
}
