// A reading: a load, and a mark that says whether a gauge was overdriven.
ghost use Rattle.std.specs.Prelude.{◌≡◌};
ghost use Rattle.bank.specs.Readings.{marked, either};

// Whether a gauge was overdriven.
#[derive(Clone, Copy, Debug, PartialEq)]
pub struct Mark {
    pub overdriven: bool,
}

// The largest output of a gauge, in digits either way, at which it is not overdriven.
const RATED: i32 = 1_250_000;

impl Mark {
    // The mark of a gauge that gives these digits.
    pub fn of(digits: i32) -> Mark
        ensures { result ≡ marked digits }
    {
        Mark {
            overdriven: digits > RATED || digits < -RATED,
        }
    }

    // The mark of two readings taken as one.
    pub fn joined(self, other: Mark) -> Mark
        ensures { result ≡ either self other }
    {
        Mark {
            overdriven: self.overdriven | other.overdriven,
        }
    }
}

// A load in thousandths of a digit, with its mark.
#[derive(Clone, Copy, Debug, PartialEq)]
pub struct Reading {
    pub load: i64,
    pub mark: Mark,
}
