// A number with its sign, as decimal digits.
ghost use Rattle.std.specs.Prelude.{◌≡◌, ◌-◌, ◌<◌};
ghost use Rattle.value.specs.Figures.{sign, signed};

use figures::digits;

// '-' below 0, else '+'.
fn sign_of(value: i64) -> u8
    ensures { result ≡ sign value }
{
    if value < 0 { b'-' } else { b'+' }
}

// The sign and the last N - 1 digits.
pub(crate) fn signed<const N: usize>(value: i64) -> [u8; N]
    requires { 0 < N }
    ensures { result ≡ signed (N - 1) value }
{
    let mut text = digits(value.unsigned_abs());
    text[0] = sign_of(value);
    text
}
