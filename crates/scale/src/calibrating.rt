// Calibrating and taring: what a scale does with loads of its own port.
ghost use Rattle.std.specs.Prelude.{◌≡◌, ◌^◌, ◌≤◌, IfOk, unsigned_abs};
ghost use Rattle.bank.specs.Fitting.{mapped_ok};
ghost use Rattle.scale.specs.Measuring.{put_port};
ghost use Rattle.scale.specs.Responding.{answer_of};
ghost use Rattle.scale.specs.States.{calibrated};
ghost use Rattle.scale.specs.Calibrating.{load_given, in_units, given_port, dead_loads, full_loads, tares};

use crate::answers::Entered;
use crate::averaging::Averaging;
use crate::display::Display;
use crate::measuring::measure;
use crate::scale::Scale;
use crate::state::State;
use crate::weighing::less;
use bank::{Address, GaugeBank};
use command::{Argument, Order};
use fault::{Cause, Fault};
use value::scaling::PER_DIGIT;

// A load in whole digits.
fn entered_load(digits: i32) -> i64
    ensures value { result ≡ in_units digits }
    ensures bound { unsigned_abs result ≤ 2 ^ 45 }
{
    i64::from(digits) * PER_DIGIT
}

// The load of a calibration: entered in digits, or else measured.
fn given_load<B: GaugeBank>(
    bank: &mut B,
    address: Address,
    averaging: Averaging,
    order: Order,
) -> Result<i64, Fault>
    ensures answer { result ≡ load_given address.number averaging order.argument order.place (B.shows bank.old address.number) }
    ensures after { B.shows bank.new ≡ put_port (B.shows bank.old) address.number (given_port averaging order.argument (B.shows bank.old address.number)) }
    ensures bound { IfOk result (λ z. unsigned_abs z ≤ 2 ^ 45) }
{
    match order.argument {
        Argument::Absent => Ok(measure(bank, address, averaging)?.load),
        Argument::Number(digits) => Ok(entered_load(digits)),
        Argument::Text(_) => Err(Cause::Malformed.at(order.place)),
    }
}

impl State {
    // A characteristic in force and stored at once.
    fn calibrate(&mut self, dead: i64, full: i64)
        ensures { self.new ≡ calibrated self.old dead full }
    {
        self.force.dead = dead;
        self.force.full = full;
        self.stored.dead = dead;
        self.stored.full = full;
        self.pending = None;
    }
}

impl Scale {
    // Keeps a dead load waiting for its full load.
    pub(crate) fn keep_dead<B: GaugeBank>(
        &mut self,
        bank: &mut B,
        address: Address,
        order: Order,
    ) -> Result<Entered, Fault>
        ensures answer { mapped_ok answer_of result ≡ (dead_loads address.number order self.old.state (B.shows bank.old address.number)).reply }
        ensures state { self.new.state ≡ (dead_loads address.number order self.old.state (B.shows bank.old address.number)).state }
        ensures ports { B.shows bank.new ≡ put_port (B.shows bank.old) address.number (dead_loads address.number order self.old.state (B.shows bank.old address.number)).port }
    {
        if self.state.force.nominal > 0 {
            return Err(Cause::NominalSet.at(address.index()));
        }
        let dead = given_load(bank, address, self.state.force.averaging, order)?;
        self.state.pending = Some(dead);
        Ok(Entered::Answered)
    }

    // Puts the waiting dead load and a full load in force, and stores them.
    pub(crate) fn set_full<B: GaugeBank>(
        &mut self,
        bank: &mut B,
        address: Address,
        order: Order,
    ) -> Result<Entered, Fault>
        ensures answer { mapped_ok answer_of result ≡ (full_loads address.number order self.old.state (B.shows bank.old address.number)).reply }
        ensures state { self.new.state ≡ (full_loads address.number order self.old.state (B.shows bank.old address.number)).state }
        ensures ports { B.shows bank.new ≡ put_port (B.shows bank.old) address.number (full_loads address.number order self.old.state (B.shows bank.old address.number)).port }
    {
        let place = address.index();
        if self.state.force.nominal > 0 {
            return Err(Cause::NominalSet.at(place));
        }
        let dead = self.state.pending.ok_or(Cause::NoDeadLoad.at(place))?;
        let full = given_load(bank, address, self.state.force.averaging, order)?;
        if full <= dead {
            return Err(Cause::SpanNotPositive.at(place));
        }
        self.state.calibrate(dead, full);
        Ok(Entered::Answered)
    }

    // Makes the gross load the tare, and shows the net weight.
    pub(crate) fn take_tare<B: GaugeBank>(
        &mut self,
        bank: &mut B,
        address: Address,
    ) -> Result<Entered, Fault>
        ensures answer { mapped_ok answer_of result ≡ (tares address.number self.old.state (B.shows bank.old address.number)).reply }
        ensures state { self.new.state ≡ (tares address.number self.old.state (B.shows bank.old address.number)).state }
        ensures ports { B.shows bank.new ≡ put_port (B.shows bank.old) address.number (tares address.number self.old.state (B.shows bank.old address.number)).port }
    {
        let measurement = measure(bank, address, self.state.force.averaging)?;
        self.state.force.tare = less(measurement.load, self.state.force.dead);
        self.state.force.display = Display::Net;
        Ok(Entered::Answered)
    }
}
