// A junction box: it stands on any bank and is a bank again.
ghost use Rattle.std.specs.Prelude.{◌≡◌, length};
ghost use Rattle.bank.specs.Ports.{first_at, rest_at};
ghost use Rattle.junction.specs.Feeding.{own};
ghost use Rattle.junction.specs.Gather.{boxed, left_below, below_after};
ghost use Rattle.junction.specs.Limits.{boxed_sound};
ghost use Rattle.junction.specs.Joins.{joining, rejoined};

mod gathering;

use crate::feeds::Feeds;
use bank::{Address, GaugeBank, Reading, checked_port};
use fault::{Cause, Fault};
use gathering::{fed_gauges, fed_tally, gives, take_fed};

// The most gauges that may feed one port.
const MOST: u16 = 8;

// A bank, and which port above each of its ports feeds. It keeps nothing of the bank below, and asks the ports that feed a port, of which the map knows the chain.
#[derive(Drop)]
pub struct JunctionBox<B> {
    below: B,
    feeds: Feeds,
}

impl<B: GaugeBank> JunctionBox<B> {
    // A box on a bank, in which each port below feeds the port above of its own number.
    pub fn new(below: B) -> Self
        ensures bank { result.below ≡ below }
        ensures feeds { result.feeds ≡ own }
    {
        JunctionBox {
            below,
            feeds: Feeds::new(),
        }
    }

    // Makes a port below feed a port above. It refuses a port above 31, that below first, and a ninth gauge, naming the port above; a refusal alters nothing.
    pub fn join(&mut self, below: u8, above: u8) -> Result<(), Fault>
        ensures answer { result ≡ joining (B.shows self.old.below) self.old.feeds below above }
        ensures bank { self.new.below ≡ self.old.below }
        ensures feeds { self.new.feeds ≡ rejoined (B.shows self.old.below) self.old.feeds below above }
    {
        let place = checked_port(below)?;
        let port = checked_port(above)?;
        self.feed(place, port)
    }

    // Makes a port below feed a port above, and refuses a ninth gauge. A function of its own beside `join`, so that the compiler builds the new map where its gauges are counted, and moves it once.
    fn feed(&mut self, place: Address, port: Address) -> Result<(), Fault>
        ensures answer { result ≡ joining (B.shows self.old.below) self.old.feeds place.number port.number }
        ensures bank { self.new.below ≡ self.old.below }
        ensures feeds { self.new.feeds ≡ rejoined (B.shows self.old.below) self.old.feeds place.number port.number }
    {
        let turned = self.feeds.turned(place, port);
        if fed_gauges(&self.below, &turned, port) > MOST {
            return Err(Cause::NinthGauge.at(port.index()));
        }
        self.feeds = turned;
        Ok(())
    }

    // How many gauges stand at a port: those that feed it, in sum.
    fn gauge_count(&self, port: Address) -> u8
        ensures { result ≡ (boxed self.now.feeds (B.shows self.now.below) port.number).gauges }
    {
        let gauges = fed_gauges(&self.below, &self.feeds, port);
        if gauges > MOST { 0 } else { gauges as u8 }
    }

    // How many readings wait at a port: as many as in the shortest of the ports that feed it.
    fn reading_count(&self, port: Address) -> u16
        ensures { result ≡ length (boxed self.now.feeds (B.shows self.now.below) port.number).waiting }
    {
        let sum = fed_tally(&self.below, &self.feeds, port);
        if sum.gauges > MOST { 0 } else { sum.waiting }
    }

    // Takes one reading of each port that feeds this one and has a gauge, as one reading; none where one of them has no reading.
    fn take_joined(&mut self, port: Address) -> Result<Reading, Fault>
        ensures answer { result ≡ first_at (boxed self.old.feeds (B.shows self.old.below)) port.number }
        ensures after { boxed self.new.feeds (B.shows self.new.below) ≡ rest_at (boxed self.old.feeds (B.shows self.old.below)) port.number }
        ensures below { B.shows self.new.below ≡ left_below self.old.feeds (B.shows self.old.below) port.number }
        ensures feeds { self.new.feeds ≡ self.old.feeds }
    {
        if !gives(&self.below, &self.feeds, port) {
            return Err(Cause::TooFewReadings.at(port.index()));
        }
        Ok(take_fed(&mut self.below, &self.feeds, port))
    }
}

impl<B: GaugeBank> GaugeBank for JunctionBox<B> {
    ghost shows = { λ s p. boxed s.feeds (B.GaugeBank.shows s.below) p };

    ghost sound = { λ s p. boxed_sound s.feeds (B.GaugeBank.shows s.below) (B.GaugeBank.sound s.below) p };

    fn gauges(&self, port: u8) -> Result<u8, Fault> {
        let place = checked_port(port)?;
        Ok(self.gauge_count(place))
    }

    fn waiting(&self, port: u8) -> Result<u16, Fault> {
        let place = checked_port(port)?;
        Ok(self.reading_count(place))
    }

    fn take(&mut self, port: u8) -> Result<Reading, Fault>
        ensures answer { result ≡ first_at (boxed self.old.feeds (B.GaugeBank.shows self.old.below)) port }
        ensures after { boxed self.new.feeds (B.GaugeBank.shows self.new.below) ≡ rest_at (boxed self.old.feeds (B.GaugeBank.shows self.old.below)) port }
        ensures below { B.GaugeBank.shows self.new.below ≡ below_after self.old.feeds (B.GaugeBank.shows self.old.below) port }
        ensures feeds { self.new.feeds ≡ self.old.feeds }
    {
        let place = checked_port(port)?;
        self.take_joined(place)
    }
}
