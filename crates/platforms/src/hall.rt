// The hall: a platform on four gauges and a scale of its own.
ghost use Rattle.std.specs.Prelude.{◌≡◌, [], ◌∷◌};
ghost use Rattle.junction.specs.Piles.{pile};
ghost use Rattle.platforms.specs.Halls.{digits, dials_at, platform};

use bank::{Dials, GaugeBank};
use junction::{Join, JunctionBox, wired};

// The corner factor of each gauge, in thousandths.
const CORNER_FACTOR: u16 = 1000;

// How many conversions each dial has left.
const CONVERSIONS: u16 = 100;

// The digits of the dials at ports 1 to 5.
const DIGITS: [i32; 5] = [250_125, 250_124, 250_126, 250_125, 500_000];

// The gauges at ports 2 to 4 join that at port 1.
const JOINS: [Join; 3] = [
    Join { below: 2, above: 1 },
    Join { below: 3, above: 1 },
    Join { below: 4, above: 1 },
];

// A dial for each of the digits, at port 1 and those after it, with a gauge there.
fn dials() -> Dials
    ensures { ⟦<Dials as GaugeBank>⟧.shows result ≡ dials_at digits }
{
    let mut dials = Dials::new();
    for (i, digits) in DIGITS.iter().enumerate() {
        let port = i as u8 + 1;
        // Neither is refused: no port is above 31, and the factor is within its range.
        let _ = dials.fit(port, CORNER_FACTOR);
        let _ = dials.set(port, *digits, CONVERSIONS);
    }
    dials
}

// The dials under a box, joined.
pub fn platform() -> JunctionBox<Dials>
    ensures { ⟦<JunctionBox<Dials> as GaugeBank>⟧.shows result ≡ platform }
{
    wired(dials(), &JOINS).junction
}
