// Which values fit a format, and what stands in for one that does not.
ghost use Rattle.std.specs.Prelude.{◌≡◌};
ghost use Rattle.value.specs.Fitting.{fits, indicated};

// The limits of a format: the two values that show an overflow, between which a value fits, and the
// largest nominal value at which any does.
#[derive(Clone, Copy)]
pub struct Limits {
    pub lower: i32,
    pub upper: i32,
    pub ceiling: u32,
}

impl Limits {
    // Whether the value fits at this nominal value.
    pub fn fits(self, nominal: u32, value: i128) -> bool
        ensures { result ≡ fits self nominal value }
    {
        nominal <= self.ceiling && (self.lower as i128) < value && value < self.upper as i128
    }

    // The value itself where it fits, else the overflow value on its side of zero.
    pub fn indicated(self, nominal: u32, value: i128) -> i32
        ensures { result ≡ indicated self nominal value }
    {
        if self.fits(nominal, value) {
            value as i32
        } else if value < 0 {
            self.lower
        } else {
            self.upper
        }
    }
}
