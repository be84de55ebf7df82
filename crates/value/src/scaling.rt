// The value that is shown for a load.
ghost use Rattle.std.specs.Prelude.{◌≡◌, ◌^◌, ◌<◌, ◌≤◌, pos, ◌*ℤ◌, ◌<ℤ◌, unsigned_abs};
ghost use Rattle.value.specs.Rounding.{nearest, Rounded};
ghost use Rattle.value.specs.Scaled.{scaled, in_digits, Shown};

use crate::rounding::{nearest, nearest_narrow};

// Loads are kept in this fraction of a digit.
pub const PER_DIGIT: i64 = 16_000;

// The exact product.
fn times(x: i128, by: u32) -> i128
    requires { unsigned_abs x ≤ 2 ^ 95 }
    ensures { result ≡ x *ℤ pos by }
{
    x * by as i128
}

// How many steps the load `num` of a span shows, where the whole span shows `full`.
fn steps(num: i64, full: u32, span: i64, step: u8) -> i128
    ensures value { result ≡ nearest (num *ℤ pos full) (span *ℤ pos step) }
    ensures size { unsigned_abs result ≤ 2 ^ 95 }
{
    nearest(times(num as i128, full), times(span as i128, step as u32))
}

// What `shown` shows, where a product has no room in 64 bits: no load of a scale is so large.
#[cold]
#[inline(never)]
fn shown_wide(num: i64, full: u32, span: i64, step: u8) -> i128
    ensures { result ≡ scaled num full span step }
{
    times(steps(num, full, span, step), step as u32)
}

// The value shown for the load `num` of a span, where the whole span shows `full`: in whole steps,
// rounded once at the end.
pub fn shown(num: i64, full: u32, span: i64, step: u8) -> i128
    ensures value { result ≡ scaled num full span step }
    ensures close { pos 0 <ℤ span → 0 < step → Shown num full span step result }
{
    let product = num.checked_mul(i64::from(full));
    let divisor = span.checked_mul(i64::from(step));
    match (product, divisor) {
        (Some(product), Some(divisor)) => {
            times(nearest_narrow(product, divisor) as i128, step as u32)
        }
        _ => shown_wide(num, full, span, step),
    }
}

// A load in 1/16,000 digit, rounded to whole digits.
pub fn whole_digits(load: i64) -> i64
    ensures value { result ≡ in_digits load }
    ensures close { Rounded load (pos 16000) result }
{
    nearest_narrow(load, PER_DIGIT)
}
