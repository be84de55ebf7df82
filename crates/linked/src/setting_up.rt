// The banks and boxes of a hall. Over each box stands a bank that keeps its counts, so that no question goes down the pile.
ghost use Rattle.std.specs.Prelude.{◌≡◌, ◌≤◌, [], ◌∷◌, length, take};
ghost use Rattle.bank.specs.Fitting.{mapped_ok};
ghost use Rattle.junction.specs.Piles.{pile};
ghost use Rattle.linked.specs.Halls.{in_range, lined, row, joined, recorded};

use bank::{CountedBank, Dials, GaugeBank, MOST_RECORDS, Record};
use fault::Cause;
use junction::{Join, JunctionBox, WiredBox, wired};

// How many ports a bank has.
const PORTS: usize = 32;

// The most joins of a row: those of the ports 1 to 31.
const ROW: usize = 31;

// The most boxes of a pile.
const MOST_BOXES: u8 = 4;

// Refuses numbers for which there is no hall: more boxes than a pile has, dials or joined ports above 31, and a joined port where no box stands.
pub(crate) fn checked(boxes: u8, ports: u8, dials: usize) -> Result<(), Cause>
    ensures { result ≡ in_range boxes ports dials }
{
    if boxes > MOST_BOXES {
        return Err(Cause::OutOfRange);
    }
    if dials > PORTS || usize::from(ports) >= PORTS || boxes == 0 && ports > 0 {
        return Err(Cause::PortRange);
    }
    Ok(())
}

// A gauge of corner factor 1,000 and a dial with 65,535 conversions at port 0 and those after it, as many as there are digits.
pub(crate) fn dials(digits: &[i32]) -> Dials
    requires { length digits.now ≤ 32 }
    ensures { ⟦<Dials as GaugeBank>⟧.shows result ≡ lined digits.now }
{
    let mut dials = Dials::new();
    for port in 0..digits.len() as u8 {
        // Neither refuses: no port here is above 31, and the factor is in its range.
        let _ = dials.fit(port, 1000);
        let _ = dials.set(port, digits[usize::from(port)], 65_535);
    }
    dials
}

// A box on a bank, to which the ports 1 to this number were joined at port 1; it refuses where a join is refused, for a ninth gauge.
pub(crate) fn joined<B: GaugeBank + Drop>(
    bank: B,
    ports: u8,
) -> Result<CountedBank<JunctionBox<B>>, Cause>
    requires { ports ≤ 31 }
    ensures { mapped_ok ⟦<CountedBank<JunctionBox<B>> as GaugeBank>⟧.shows result ≡ joined (B.shows bank) ports }
{
    let mut joins = [Join { below: 0, above: 1 }; ROW];
    for port in 0..ports {
        joins[usize::from(port)] = Join {
            below: port + 1,
            above: 1,
        };
    }
    let WiredBox { junction, refused } = wired(bank, &joins[..usize::from(ports)]);
    if refused > 0 {
        return Err(Cause::NinthGauge);
    }
    Ok(CountedBank::over(junction))
}

// One more box, with no join, on a bank.
pub(crate) fn raised<B: GaugeBank>(bank: B) -> CountedBank<JunctionBox<B>>
    ensures { ⟦<CountedBank<JunctionBox<B>> as GaugeBank>⟧.shows result ≡ pile (B.shows bank) ([] ∷ []) }
{
    CountedBank::over(JunctionBox::new(bank))
}

// Writes digits down as records of port 1, and answers how many.
pub(crate) fn write_down(digits: &[i32], records: &mut [Record; MOST_RECORDS]) -> usize
    requires { length digits.now ≤ 65535 }
    ensures few { result ≤ 65535 }
    ensures records { take result records.new ≡ recorded digits.now }
{
    let count = digits.len();
    for i in 0..count {
        records[i] = Record {
            port: 1,
            digits: digits[i],
        };
    }
    count
}
