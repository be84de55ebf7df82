// A table of dials.
ghost use Rattle.std.specs.Prelude.{◌≡◌};
ghost use Rattle.bank.specs.Gauges.{fits};
ghost use Rattle.bank.specs.Fitting.{factor_at};
ghost use Rattle.bank.specs.Dials.{setting_of, setting_at, still_at, placed, set_at, given, given_short};

use crate::dial::Dial;
use crate::gauges::{Gauges, Source};
use crate::{Address, checked_port};
use fault::Fault;

// The dial of each port.
#[derive(Drop)]
pub struct DialTable {
    dials: [Dial; 32],
}

// Gauges whose digits are set by hand.
pub type Dials = Gauges<DialTable>;

impl Dial {
    // A dial that gives nothing.
    fn still() -> Self
        ensures { setting_of result ≡ still_at 0 }
    {
        Dial {
            digits: 0,
            conversions: 0,
        }
    }
}

impl Source for DialTable {
    ghost due = { λ s. given (setting_at s.dials) };

    ghost short = { λ s p. given_short s.dials p };

    fn left(&self, at: Address) -> u16 {
        self.dials[at.index()].conversions
    }

    fn next(&mut self, at: Address) -> Option<i32> {
        let place = at.index();
        let dial = self.dials[place];
        self.dials[place].conversions = dial.conversions.checked_sub(1)?;
        Some(dial.digits)
    }
}

impl Gauges<DialTable> {
    // No gauge at any port, and every dial at 0 digits and 0 conversions.
    pub fn new() -> Self
        ensures factors { factor_at result.fitting.factors ≡ fits }
        ensures settings { setting_at result.source.dials ≡ still_at }
    {
        Gauges::over(DialTable {
            dials: [Dial::still(); 32],
        })
    }

    // Gives a port's dial its digits and the conversions that are left.
    pub fn set(&mut self, port: u8, digits: i32, conversions: u16) -> Result<(), Fault>
        ensures answer { result ≡ placed port }
        ensures factors { factor_at self.new.fitting.factors ≡ factor_at self.old.fitting.factors }
        ensures settings { setting_at self.new.source.dials ≡ set_at (setting_at self.old.source.dials) port (record { digits = digits; conversions = conversions }) }
    {
        let place = checked_port(port)?;
        self.source.dials[place.index()] = Dial {
            digits,
            conversions,
        };
        Ok(())
    }
}
