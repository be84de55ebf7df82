// A bank that keeps the counts of the bank that it stands on.
ghost use Rattle.std.specs.Prelude.{◌≡◌};
ghost use Rattle.bank.specs.Counted.{counts, CountsOf};

use crate::{Address, GaugeBank, Reading, checked_port};
use fault::Fault;

// How many gauges stand at a port, and how many readings wait there.
#[derive(Clone, Copy)]
struct Counts {
    gauges: u8,
    waiting: u16,
}

impl Counts {
    // Those of a port of a bank, which refuses no address.
    fn of<B: GaugeBank>(bank: &B, port: Address) -> Counts
        ensures { result ≡ counts (B.shows bank.now port.number) }
    {
        Counts {
            gauges: bank.gauges(port.number).unwrap_or(0),
            waiting: bank.waiting(port.number).unwrap_or(0),
        }
    }
}

// A bank that means what the bank below means, and keeps both counts of each of its ports, so that counting never asks below. They stay true: the bank below is altered by the takes here alone.
#[derive(Drop)]
pub struct CountedBank<B: GaugeBank> {
    below: B,
    counted: [Counts; 32],
    ghost each: { CountsOf (B.shows below) counted },
}

impl<B: GaugeBank> CountedBank<B> {
    // A counted bank over a bank, which is asked for the counts of all its ports.
    pub fn over(below: B) -> Self
        ensures { result.below ≡ below }
    {
        let mut counted = [Counts {
            gauges: 0,
            waiting: 0,
        }; 32];
        for port in Address::all() {
            counted[port.index()] = Counts::of(&below, port);
        }
        CountedBank { below, counted }
    }
}

impl<B: GaugeBank> GaugeBank for CountedBank<B> {
    ghost shows = { λ s p. B.GaugeBank.shows s.below p };

    ghost sound = { λ s p. B.GaugeBank.sound s.below p };

    fn gauges(&self, port: u8) -> Result<u8, Fault> {
        let place = checked_port(port)?;
        Ok(self.counted[place.index()].gauges)
    }

    fn waiting(&self, port: u8) -> Result<u16, Fault> {
        let place = checked_port(port)?;
        Ok(self.counted[place.index()].waiting)
    }

    fn take(&mut self, port: u8) -> Result<Reading, Fault> {
        let reading = self.below.take(port)?;
        self.counted[port as usize].waiting -= 1;
        Ok(reading)
    }
}
