// Measuring: readings of the scale's own port as one exact load.
ghost use Rattle.std.specs.Prelude.{◌≡◌, ℕ, ◌*◌, ◌^◌, ◌≤◌, length, IfOk, Ok, unsigned_abs};
ghost use Rattle.bank.specs.Ports.{most};
ghost use Rattle.scale.specs.Choices.{readings_of};
ghost use Rattle.scale.specs.Measuring.{put_port, dropped, enough_for, one_more, mean_of, sums, measurement, measures, measured_port};

use crate::averaging::Averaging;
use bank::{Address, GaugeBank, Mark, Reading};
use fault::{Cause, Fault};

// A load in 1/16,000 digit, and the mark of its readings.
#[derive(Clone, Copy)]
pub struct Measurement {
    pub load: i64,
    pub mark: Mark,
}

// A sum of readings with one reading more. A box adds two readings alike, by itself: one call for both would be public,
// may ask for no bounds, and so could not promise the exact sum.
fn with(sum: Reading, reading: Reading) -> Reading
    requires so_far { unsigned_abs sum.load ≤ 2 ^ 60 }
    requires one { unsigned_abs reading.load ≤ 2 ^ 60 }
    ensures { result ≡ one_more sum reading }
{
    Reading {
        load: sum.load + reading.load,
        mark: sum.mark.joined(reading.mark),
    }
}

// The measurement that so many readings make: their sum times 16 over their number.
fn mean(sum: Reading, averaging: Averaging) -> Measurement
    requires { unsigned_abs sum.load ≤ 128 * most }
    ensures value { result ≡ mean_of sum averaging }
    ensures bound { unsigned_abs result.load ≤ 2 ^ 43 }
{
    Measurement {
        load: sum.load * averaging.weight(),
        mark: sum.mark,
    }
}

// Refuses where fewer than so many readings wait at the scale's port.
pub(crate) fn enough<B: GaugeBank>(bank: &B, address: Address, readings: u16) -> Result<(), Fault>
    ensures { result ≡ enough_for address.number readings (B.shows bank.now address.number) }
{
    if bank.waiting(address.number)? < readings {
        return Err(Cause::TooFewReadings.at(address.index()));
    }
    Ok(())
}

// Takes so many readings and adds them.
fn total<B: GaugeBank>(bank: &mut B, address: Address, readings: u8) -> Result<Reading, Fault>
    requires few { readings ≤ 16 }
    requires there { readings ≤ length (B.shows bank.old address.number).waiting }
    ensures answer { result ≡ Ok (sums readings (B.shows bank.old address.number).waiting) }
    ensures after { B.shows bank.new ≡ put_port (B.shows bank.old) address.number (dropped readings (B.shows bank.old address.number)) }
    ensures bound { IfOk result (λ s. unsigned_abs s.load ≤ 128 * most) }
{
    let mut sum = Reading {
        load: 0,
        mark: Mark { overdriven: false },
    };
    for _ in 0..readings {
        sum = with(sum, bank.take(address.number)?);
    }
    Ok(sum)
}

// The measurement of the first readings that wait, which are enough: no fault comes. It answers a `Result`, as all that
// weighs does, since the fault of the bank's `take` goes up by `?` from the bank through measuring to the line.
pub(crate) fn measured<B: GaugeBank>(
    bank: &mut B,
    address: Address,
    averaging: Averaging,
) -> Result<Measurement, Fault>
    requires { readings_of averaging ≤ length (B.shows bank.old address.number).waiting }
    ensures answer { result ≡ Ok (measurement averaging (B.shows bank.old address.number).waiting) }
    ensures after { B.shows bank.new ≡ put_port (B.shows bank.old) address.number (dropped (readings_of averaging) (B.shows bank.old address.number)) }
    ensures bound { IfOk result (λ m. unsigned_abs m.load ≤ 2 ^ 43) }
{
    let sum = total(bank, address, averaging.readings())?;
    Ok(mean(sum, averaging))
}

// Takes the readings of one measurement, or none where too few wait. Bank and address are no struct: it would hold a
// `&mut`, and each call would promise two things more, that it keeps its reference and its address.
pub(crate) fn measure<B: GaugeBank>(
    bank: &mut B,
    address: Address,
    averaging: Averaging,
) -> Result<Measurement, Fault>
    ensures answer { result ≡ measures address.number averaging (B.shows bank.old address.number) }
    ensures after { B.shows bank.new ≡ put_port (B.shows bank.old) address.number (measured_port averaging (B.shows bank.old address.number)) }
    ensures bound { IfOk result (λ m. unsigned_abs m.load ≤ 2 ^ 43) }
{
    enough(bank, address, u16::from(averaging.readings()))?;
    measured(bank, address, averaging)
}
