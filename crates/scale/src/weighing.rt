// What a load weighs under the settings: the shown value and its status.
ghost use Rattle.std.specs.Prelude.{◌≡◌, ◌+◌, ◌^◌, ◌≤◌, ◌-ℤ◌, length, Ok, unsigned_abs};
ghost use Rattle.scale.specs.Choices.{readings_of};
ghost use Rattle.scale.specs.Measuring.{put_port, dropped, measurement};
ghost use Rattle.scale.specs.Weighing.{shown_as, of_both, fits_in, weighed, tare_ticket};

use crate::display::Display;
use crate::measuring::measured;
use crate::scale::Scale;
use crate::state::Ticket;
use bank::{Address, GaugeBank};
use fault::Fault;
use value::block::Measured;
use value::layout::Layout;
use value::output::OutputFormat;
use value::scaling::shown;
use value::status::status;

// The exact difference of two loads. It is a function, since the proof of what a load shows did not close with `-`
// written out.
pub(crate) fn less(load: i64, other: i64) -> i64
    requires load { unsigned_abs load ≤ 2 ^ 60 }
    requires other { unsigned_abs other ≤ 2 ^ 60 }
    ensures value { result ≡ load -ℤ other }
    ensures bound { unsigned_abs result ≤ unsigned_abs load + unsigned_abs other }
{
    load - other
}

// A weight as it is shown, and whether it fits the format in force.
#[derive(Clone, Copy)]
struct Weight {
    value: i128,
    fits: bool,
}

impl Display {
    // The one of two values that is on display.
    fn of(self, net: i128, gross: i128) -> i128
        ensures { result ≡ of_both self net gross }
    {
        match self {
            Display::Net => net,
            Display::Gross => gross,
        }
    }
}

impl Scale {
    // The value that a load shows in a format, under the nominal value, the step and the calibration in force.
    fn shown(&self, format: OutputFormat, load: i64) -> i128
        ensures { result ≡ shown_as self.now.state.force format load }
    {
        let force = &self.state.force;
        shown(
            load,
            format.full_scale(force.nominal),
            less(force.full, force.dead),
            force.step.value(),
        )
    }

    // The weight of a load in the format in force.
    fn weight(&self, load: i64) -> Weight
        ensures value { result.value ≡ shown_as self.now.state.force self.now.state.force.format load }
        ensures fits { result.fits ≡ fits_in self.now.state.force result.value }
    {
        let force = &self.state.force;
        let value = self.shown(force.format, load);
        Weight {
            value,
            fits: force.format.fits(force.nominal, value),
        }
    }

    // The net weight: the gross weight where there is no tare, so that it is worked out once.
    fn net_weight(&self, gross_load: i64, gross: Weight) -> Weight
        requires load { unsigned_abs gross_load ≤ 2 ^ 59 }
        requires value { gross.value ≡ shown_as self.now.state.force self.now.state.force.format gross_load }
        requires fits { gross.fits ≡ fits_in self.now.state.force gross.value }
        ensures value { result.value ≡ shown_as self.now.state.force self.now.state.force.format (gross_load -ℤ self.now.state.force.tare) }
        ensures fits { result.fits ≡ fits_in self.now.state.force result.value }
    {
        if self.state.force.tare == 0 {
            gross
        } else {
            self.weight(less(gross_load, self.state.force.tare))
        }
    }

    // Measures once, where readings enough wait: net or gross, as the settings in force have it, and the status of both.
    // No fault comes, and it answers a `Result` as `measured` does. Inlined, since a block calls it for each of its values.
    #[inline(always)]
    pub(crate) fn weigh<B: GaugeBank>(
        &self,
        bank: &mut B,
        address: Address,
    ) -> Result<Measured, Fault>
        requires { readings_of self.now.state.force.averaging ≤ length (B.shows bank.old address.number).waiting }
        ensures answer { result ≡ Ok (weighed self.now.state.force (measurement self.now.state.force.averaging (B.shows bank.old address.number).waiting)) }
        ensures after { B.shows bank.new ≡ put_port (B.shows bank.old) address.number (dropped (readings_of self.now.state.force.averaging) (B.shows bank.old address.number)) }
    {
        let force = &self.state.force;
        let measurement = measured(bank, address, force.averaging)?;
        let gross_load = less(measurement.load, force.dead);
        let gross = self.weight(gross_load);
        let net = self.net_weight(gross_load, gross);
        Ok(Measured {
            value: force.display.of(net.value, gross.value),
            status: status(net.fits, gross.fits, measurement.mark.overdriven),
        })
    }

    // The tare, as a decimal value with CR LF.
    pub(crate) fn tare_ticket(&self) -> Ticket
        ensures { result ≡ tare_ticket self.now.state.force }
    {
        let force = &self.state.force;
        let format = OutputFormat {
            layout: Layout::Decimal,
            ended: true,
        };
        Ticket {
            measured: Measured {
                value: self.shown(format, force.tare),
                status: 0,
            },
            format,
            nominal: force.nominal,
        }
    }
}
