// The bank beneath the boxes: dials or a recording.
ghost use Rattle.std.specs.Prelude.{◌≡◌, Option, Result, refl};
ghost use Rattle.bank.specs.Gauges.{refitted};
ghost use Rattle.bank.specs.Fitting.{factor_at};
ghost use Rattle.bank.specs.Dials.{setting_at};
ghost use Rattle.bank.specs.Records.{due_at};
ghost use Rattle.halls.specs.Bases.{Base, OfDials, OfRecords, base_ports, refit, setting_told, reset, chosen, base_of, shown_by, sound_of, shows_base};

use crate::requests::Kind;
use bank::{Dials, GaugeBank, Reading, Recording};
use fault::Fault;

// A bank that a script fits out before boxes stand on it.
pub trait Fitted: GaugeBank {
    // Its corner factors, and its dials or the digits that are due.
    ghost base: { Self → Base };

    // Gives a port one gauge with a corner factor in thousandths, in place of any that it has.
    fn fit(&mut self, port: u8, thousandths: u16) -> Result<(), Fault>
        ensures answer { result ≡ refitted port thousandths }
        ensures after { base self.new ≡ refit (base self.old) port thousandths };

    // Sets a port's dial, where the bank has dials.
    fn set(&mut self, port: u8, digits: i32, conversions: u16) -> Option<Result<(), Fault>>
        ensures answer { result ≡ setting_told (base self.old) port }
        ensures after { base self.new ≡ reset (base self.old) port (record { digits = digits; conversions = conversions }) };

    // They are what its ports show.
    ghost shows_base: { (s : Self) → Self.shows s ≡ base_ports (base s) };
}

impl Fitted for Dials {
    ghost base = { λ s. OfDials (factor_at s.fitting.factors) (setting_at s.source.dials) };

    ghost shows_base = { λ s. refl };

    fn fit(&mut self, port: u8, thousandths: u16) -> Result<(), Fault> {
        Dials::fit(self, port, thousandths)
    }

    fn set(&mut self, port: u8, digits: i32, conversions: u16) -> Option<Result<(), Fault>> {
        Some(Dials::set(self, port, digits, conversions))
    }
}

impl Fitted for Recording<'_> {
    ghost base = { λ s. OfRecords (factor_at s.fitting.factors) (due_at s.source.records.now s.source.cursors) };

    ghost shows_base = { λ s. refl };

    fn fit(&mut self, port: u8, thousandths: u16) -> Result<(), Fault> {
        Recording::fit(self, port, thousandths)
    }

    fn set(&mut self, _port: u8, _digits: i32, _conversions: u16) -> Option<Result<(), Fault>> {
        None
    }
}

// A bank of one of the two kinds that a script can ask for, a gauge bank itself: which of them is told once, and the boxes stand on either. It is generic in them since a recording is lent its records.
#[derive(Drop)]
pub enum Beneath<D, R> {
    Dialled(D),
    Recorded(R),
}

impl<D: Drop, R: Drop> Beneath<D, R> {
    // The one of two banks that is of a kind.
    pub fn of_kind(kind: Kind, dials: D, recording: R) -> Beneath<D, R>
        ensures { result ≡ chosen kind dials recording }
    {
        match kind {
            Kind::Dials => Beneath::Dialled(dials),
            Kind::Recording => Beneath::Recorded(recording),
        }
    }
}

impl<D: Fitted, R: Fitted> Fitted for Beneath<D, R> {
    ghost base = { λ s. base_of D.Fitted.base R.Fitted.base s };

    ghost shows_base = { λ s. shows_base D.GaugeBank.shows R.GaugeBank.shows D.Fitted.base R.Fitted.base D.Fitted.shows_base R.Fitted.shows_base s };

    fn fit(&mut self, port: u8, thousandths: u16) -> Result<(), Fault> {
        match self {
            Beneath::Dialled(dials) => dials.fit(port, thousandths),
            Beneath::Recorded(recording) => recording.fit(port, thousandths),
        }
    }

    fn set(&mut self, port: u8, digits: i32, conversions: u16) -> Option<Result<(), Fault>> {
        match self {
            Beneath::Dialled(dials) => dials.set(port, digits, conversions),
            Beneath::Recorded(recording) => recording.set(port, digits, conversions),
        }
    }
}

impl<D: GaugeBank, R: GaugeBank> GaugeBank for Beneath<D, R> {
    ghost shows = { λ s p. shown_by D.GaugeBank.shows R.GaugeBank.shows s p };

    ghost sound = { λ s p. sound_of D.GaugeBank.shows R.GaugeBank.shows D.GaugeBank.sound R.GaugeBank.sound s p };

    fn gauges(&self, port: u8) -> Result<u8, Fault> {
        match self {
            Beneath::Dialled(dials) => dials.gauges(port),
            Beneath::Recorded(recording) => recording.gauges(port),
        }
    }

    fn waiting(&self, port: u8) -> Result<u16, Fault> {
        match self {
            Beneath::Dialled(dials) => dials.waiting(port),
            Beneath::Recorded(recording) => recording.waiting(port),
        }
    }

    fn take(&mut self, port: u8) -> Result<Reading, Fault> {
        match self {
            Beneath::Dialled(dials) => dials.take(port),
            Beneath::Recorded(recording) => recording.take(port),
        }
    }
}
