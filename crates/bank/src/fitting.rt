// The gauges that are fitted at the ports of a bank, and what one reads.
ghost use Rattle.std.specs.Prelude.{◌≡◌, ◌≤◌, ok_or, unsigned_abs};
ghost use Rattle.fault.specs.declared.causes.Cause.TheVariants.{FactorRange};
ghost use Rattle.std.specs.Option.{option_map};
ghost use Rattle.bank.specs.Gauges.{held, reading, tuned_to, fits, refitted, fit_at};
ghost use Rattle.bank.specs.Fitting.{thousandths_of, factor_at, mapped_ok, count_of};

use crate::factor::CornerFactor;
use crate::reading::{Mark, Reading};
use crate::{Address, checked_port};
use fault::{Cause, Fault};

// The largest output of a gauge, in digits either way.
const FULL_OUTPUT: i32 = 1_638_399;

// Digits held to what a gauge can give.
fn held_digits(digits: i32) -> i32
    ensures value { result ≡ held digits }
    ensures bound { unsigned_abs result ≤ 1638399 }
{
    digits.clamp(-FULL_OUTPUT, FULL_OUTPUT)
}

const LOWEST: u16 = 500;

const HIGHEST: u16 = 1500;

impl TryFrom<u16> for CornerFactor {
    type Error = Cause;

    ghost try_from_gives = { λ f factor. mapped_ok thousandths_of factor ≡ ok_or (tuned_to f) FactorRange };

    // The factor, if it lies within 500 to 1,500 thousandths.
    fn try_from(thousandths: u16) -> Result<Self, Cause> {
        if thousandths < LOWEST || thousandths > HIGHEST {
            return Err(Cause::FactorRange);
        }
        Ok(CornerFactor { thousandths })
    }
}

impl CornerFactor {
    // What a gauge with this factor reads at these digits.
    pub fn reading(self, digits: i32) -> Reading
        ensures { result ≡ reading self.thousandths digits }
    {
        Reading {
            load: held_digits(digits) as i64 * self.thousandths as i64,
            mark: Mark::of(digits),
        }
    }
}

// The gauge of each port, by its corner factor.
#[derive(Drop)]
pub struct Fitting {
    factors: [Option<CornerFactor>; 32],
}

impl Fitting {
    // No gauge at any port.
    pub fn new() -> Self
        ensures { factor_at result.factors ≡ fits }
    {
        Fitting {
            factors: [None; 32],
        }
    }

    // Gives a port one gauge with this corner factor, in place of any that it has.
    pub fn fit(&mut self, port: u8, thousandths: u16) -> Result<(), Fault>
        ensures answer { result ≡ refitted port thousandths }
        ensures after { factor_at self.new.factors ≡ fit_at (factor_at self.old.factors) port thousandths }
    {
        let place = checked_port(port)?;
        let factor = CornerFactor::try_from(thousandths).map_err(|cause| cause.at(place.index()))?;
        self.factors[place.index()] = Some(factor);
        Ok(())
    }

    // The corner factor of the gauge at a port, if there is one.
    pub fn at(&self, place: Address) -> Option<CornerFactor>
        ensures { option_map thousandths_of result ≡ factor_at self.now.factors place.number }
    {
        self.factors[place.index()]
    }

    // How many gauges are fitted at a port: one or none.
    pub fn gauges(&self, place: Address) -> u8
        ensures { result ≡ count_of (factor_at self.now.factors place.number) }
    {
        match self.at(place) {
            None => 0,
            Some(_) => 1,
        }
    }
}
