// A port of a box worked out from the ports of the bank below that feed it.
ghost use Rattle.std.specs.Prelude.{◌≡◌, None};
ghost use Rattle.bank.specs.Ports.{front};
ghost use Rattle.junction.specs.Feeding.{fed};
ghost use Rattle.junction.specs.Gather.{gather, gives, dry_from, drawn};
ghost use Rattle.junction.specs.Counting.{tally_of, reading_or_nothing};

use super::MOST;
use crate::as_one::{Tally, add_reading};
use crate::feeds::Feeds;
use bank::{Address, GaugeBank, Mark, Reading};

// How many gauges stand at a port below. No address is refused there.
fn gauges_at<B: GaugeBank>(below: &B, at: Address) -> u16
    ensures { result ≡ (B.shows below.now at.number).gauges }
{
    below.gauges(at.number).map_or(0, u16::from)
}

// Both counts of a port below; one without a gauge is not asked for its readings, since it has none.
fn tally_at<B: GaugeBank>(below: &B, at: Address) -> Tally
    ensures { result ≡ tally_of (B.shows below.now at.number) }
{
    let gauges = gauges_at(below, at);
    let waiting = if gauges == 0 {
        0
    } else {
        below.waiting(at.number).unwrap_or(0)
    };
    Tally { gauges, waiting }
}

// How many gauges feed a port, in sum.
pub(super) fn fed_gauges<B: GaugeBank>(below: &B, feeds: &Feeds, port: Address) -> u16
    ensures { result ≡ (gather (fed feeds.now) (B.shows below.now) port.number 32).gauges }
{
    let mut gauges = 0u16;
    let mut at = feeds.first(port);
    while let Some(q) = at {
        gauges += gauges_at(below, q);
        at = feeds.next(q);
    }
    gauges
}

// How many gauges feed a port, in sum, and how many readings wait there: as many as in the shortest of the ports that feed it.
pub(super) fn fed_tally<B: GaugeBank>(below: &B, feeds: &Feeds, port: Address) -> Tally
    ensures { result ≡ tally_of (gather (fed feeds.now) (B.shows below.now) port.number 32) }
{
    let mut sum = Tally {
        gauges: 0,
        waiting: 0,
    };
    let mut at = feeds.first(port);
    while let Some(q) = at {
        sum = sum.joined(tally_at(below, q));
        at = feeds.next(q);
    }
    sum
}

// Whether a port gives a reading: one gauge at least feeds it and eight at most, and no port that feeds it is dry. The first dry port decides, so that the search is left from inside there and no port after it is asked; else it yields how many gauges feed the port.
pub(super) fn gives<B: GaugeBank>(below: &B, feeds: &Feeds, port: Address) -> bool
    ensures { result ≡ gives feeds.now (B.shows below.now) port.number }
{
    let found = 'search: {
        let mut gauges = 0u16;
        let mut asked = feeds.first(port);
        while let Some(q) = asked {
            let one = tally_at(below, q);
            if one.is_dry() {
                break 'search None;
            }
            gauges += one.gauges;
            asked = feeds.next(q);
        }
        Some(gauges)
    };
    match found {
        None => false,
        Some(gauges) => gauges > 0 && gauges <= MOST,
    }
}

// Takes a reading at each port that feeds a port, none of which is dry, and adds them. A port without a gauge has none to take, and counts for nothing.
pub(super) fn take_fed<B: GaugeBank>(below: &mut B, feeds: &Feeds, port: Address) -> Reading
    requires { dry_from (fed feeds.now) (B.shows below.now) port.number 0 32 ≡ None }
    ensures answer { result ≡ reading_or_nothing (front (gather (fed feeds.now) (B.shows below.old) port.number 32).waiting) }
    ensures after { B.shows below.new ≡ drawn (fed feeds.now) (B.shows below.old) port.number 32 }
{
    let mut sum = Reading {
        load: 0,
        mark: Mark { overdriven: false },
    };
    let mut at = feeds.first(port);
    while let Some(q) = at {
        if let Ok(one) = below.take(q.number) {
            add_reading(&mut sum, one);
        }
        at = feeds.next(q);
    }
    sum
}
