// Two ports as one: their counts, and their readings. A port without a gauge counts for nothing.
ghost use Rattle.std.specs.Prelude.{◌≡◌, ◌+◌, ◌<◌};
ghost use Rattle.junction.specs.Gather.{both};
ghost use Rattle.junction.specs.Counting.{joined, dried, Carried};

use bank::Reading;

// How many gauges stand at ports taken as one, 32 at most, and how many readings wait there.
#[derive(Clone, Copy)]
pub(crate) struct Tally {
    pub(crate) gauges: u16,
    pub(crate) waiting: u16,
}

impl Tally {
    // The counts of two ports as one: as many readings as in the shorter.
    pub(crate) fn joined(self, other: Tally) -> Tally
        requires { self.gauges + other.gauges < 65536 }
        ensures { result ≡ joined self other }
    {
        let waiting = match (self.gauges, other.gauges) {
            (0, _) => other.waiting,
            (_, 0) => self.waiting,
            _ => self.waiting.min(other.waiting),
        };
        Tally {
            gauges: self.gauges + other.gauges,
            waiting,
        }
    }

    // Whether a port has a gauge and no reading.
    pub(crate) fn is_dry(self) -> bool
        ensures { result ≡ dried self }
    {
        self.gauges > 0 && self.waiting == 0
    }
}

// Adds a reading to a sum: the loads exactly, the marks joined.
pub(crate) fn add_reading(sum: &mut Reading, one: Reading)
    requires { (Carried sum.old) × (Carried one) }
    ensures { sum.new ≡ both sum.old one }
{
    sum.load += one.load;
    sum.mark = sum.mark.joined(one.mark);
}
