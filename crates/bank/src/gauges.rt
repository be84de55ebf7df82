// Gauges whose digits come from a source.
ghost use Rattle.std.specs.Prelude.{◌≡◌, ◌≤◌, ℕ, List, ℤ, length};
ghost use Rattle.bank.specs.Gauges.{fits, refitted, fit_at, fitted, due_after};
ghost use Rattle.bank.specs.Ports.{front, less_at, first_at, rest_at};
ghost use Rattle.bank.specs.Fitting.{factor_at, fitted_sound};

use crate::fitting::Fitting;
use crate::{Address, GaugeBank, Reading, checked_port};
use fault::{Cause, Fault};

// Where the digits of gauges come from: at each port a list of digits waits.
pub trait Source {
    ghost due: { Self → ℕ → List ℤ };

    ghost short: { (s : Self) (p : ℕ) → length (due s p) ≤ 65535 };

    // How many digits wait at a port.
    fn left(&self, at: Address) -> u16
        ensures { result ≡ length (due self.now at.number) };

    // Takes the first digits of a port, if any wait.
    fn next(&mut self, at: Address) -> Option<i32>
        ensures answer { result ≡ front (due self.old at.number) }
        ensures after { due self.new ≡ less_at (due self.old) at.number };
}

// A bank of gauges over a source of digits.
// A table of factors here and one of digits in the source, by the same ports: the factors are those of any bank, the digits are the source's own.
#[derive(Drop)]
pub struct Gauges<S> {
    fitting: Fitting,
    pub(crate) source: S,
}

impl<S: Source> Gauges<S> {
    // No gauge at any port.
    pub(crate) fn over(source: S) -> Self
        ensures factors { factor_at result.fitting.factors ≡ fits }
        ensures source { result.source ≡ source }
    {
        Gauges {
            fitting: Fitting::new(),
            source,
        }
    }

    // Gives a port one gauge with a corner factor in thousandths, in place of any that it has.
    pub fn fit(&mut self, port: u8, thousandths: u16) -> Result<(), Fault>
        ensures answer { result ≡ refitted port thousandths }
        ensures factors { factor_at self.new.fitting.factors ≡ fit_at (factor_at self.old.fitting.factors) port thousandths }
        ensures source { self.new.source ≡ self.old.source }
    {
        self.fitting.fit(port, thousandths)
    }
}

impl<S: Source> GaugeBank for Gauges<S> {
    ghost shows = { λ s. fitted (factor_at s.fitting.factors) (S.Source.due s.source) };

    ghost sound = { λ s p. fitted_sound s.fitting.factors (S.Source.due s.source) p (S.Source.short s.source p) };

    fn gauges(&self, port: u8) -> Result<u8, Fault> {
        let place = checked_port(port)?;
        Ok(self.fitting.gauges(place))
    }

    fn waiting(&self, port: u8) -> Result<u16, Fault> {
        let place = checked_port(port)?;
        Ok(
            self.fitting
                .at(place)
                .map_or(0, |_| self.source.left(place)),
        )
    }

    fn take(&mut self, port: u8) -> Result<Reading, Fault>
        ensures answer { result ≡ first_at (fitted (factor_at self.old.fitting.factors) (S.Source.due self.old.source)) port }
        ensures after { fitted (factor_at self.new.fitting.factors) (S.Source.due self.new.source) ≡ rest_at (fitted (factor_at self.old.fitting.factors) (S.Source.due self.old.source)) port }
        ensures digits { S.Source.due self.new.source ≡ due_after (factor_at self.old.fitting.factors) (S.Source.due self.old.source) port }
        ensures fitting { self.new.fitting ≡ self.old.fitting }
    {
        let place = checked_port(port)?;
        let empty = Cause::TooFewReadings.at(place.index());
        let factor = self.fitting.at(place).ok_or(empty)?;
        let digits = self.source.next(place).ok_or(empty)?;
        Ok(factor.reading(digits))
    }
}
