// Division rounded once, to the nearest whole number.
ghost use Rattle.std.specs.Prelude.{◌≡◌, ◌≤◌, pos, ◌<ℤ◌, unsigned_abs};
ghost use Rattle.value.specs.Rounding.{nearest, Rounded};

// The one body, over the width. A rest is half of the divisor or more where no more than the rest is missing from it to
// the divisor: twice the rest might have no room.
macro_rules! nearest_in {
    ($width:ty, $num:ident, $den:ident) => {{
        if $den <= 0 {
            return 0;
        }
        let whole: $width = $num / $den;
        let rest = ($num % $den).unsigned_abs();
        let missing = $den.unsigned_abs() - rest;
        if missing <= rest {
            whole + $num.signum()
        } else {
            whole
        }
    }};
}

// The nearest whole number to num / den, halves away from zero; 0 where the divisor is not above 0.
pub fn nearest(num: i128, den: i128) -> i128
    ensures value { result ≡ nearest num den }
    ensures close { pos 0 <ℤ den → Rounded num den result }
    ensures size { unsigned_abs result ≤ unsigned_abs num }
{
    nearest_in!(i128, num, den)
}

// The same in 64 bits, which a processor divides by itself.
pub(crate) fn nearest_narrow(num: i64, den: i64) -> i64
    ensures { result ≡ nearest num den }
{
    nearest_in!(i64, num, den)
}
