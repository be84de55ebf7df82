// Weighing: measured values one after another, and a value held for later.
ghost use Rattle.std.specs.Prelude.{◌≡◌, ◌*◌, ◌≤◌, length, Ok};
ghost use Rattle.bank.specs.Fitting.{mapped_ok};
ghost use Rattle.command.specs.Table.{most_values};
ghost use Rattle.value.specs.Output.{format_block};
ghost use Rattle.value.specs.Written.{granted, written};
ghost use Rattle.scale.specs.Measuring.{put_port, dropped, measures, measured_port};
ghost use Rattle.scale.specs.Blocks.{weighings, readings_for, blocks, block_port, written_by, holding};

use crate::measuring::enough;
use crate::scale::Scale;
use crate::settings::Settings;
use crate::state::Ticket;
use bank::{Address, GaugeBank};
use command::MOST_VALUES;
use fault::Fault;
use value::block::Measured;

// What stands in the place of a value that is not yet measured.
const UNMEASURED: Measured = Measured {
    value: 0,
    status: 0,
};

impl Scale {
    // Weighs as often as there are places, for which readings enough wait: no fault comes, and it answers a `Result` as
    // `measured` does.
    fn weigh_all<B: GaugeBank>(
        &self,
        bank: &mut B,
        address: Address,
        values: &mut [Measured],
    ) -> Result<(), Fault>
        requires { readings_for self.now.state.force (length values.old) ≤ length (B.shows bank.old address.number).waiting }
        ensures answer { result ≡ Ok tt }
        ensures values { values.new ≡ weighings self.now.state.force (length values.old) (B.shows bank.old address.number).waiting }
        ensures after { B.shows bank.new ≡ put_port (B.shows bank.old) address.number (dropped (readings_for self.now.state.force (length values.old)) (B.shows bank.old address.number)) }
    {
        for place in values.iter_mut() {
            *place = self.weigh(bank, address)?;
        }
        Ok(())
    }

    // Weighs as often as there are places, and writes the values.
    fn write_all<B: GaugeBank>(
        &self,
        bank: &mut B,
        address: Address,
        values: &mut [Measured],
        out: &mut [u8],
    ) -> Result<usize, Fault>
        requires { readings_for self.now.state.force (length values.old) ≤ length (B.shows bank.old address.number).waiting }
        ensures answer { result ≡ Ok (length (granted out.old (format_block self.now.state.force.format self.now.state.force.nominal address.number (weighings self.now.state.force (length values.old) (B.shows bank.old address.number).waiting)))) }
        ensures buffer { out.new ≡ written out.old (format_block self.now.state.force.format self.now.state.force.nominal address.number (weighings self.now.state.force (length values.old) (B.shows bank.old address.number).waiting)) }
        ensures after { B.shows bank.new ≡ put_port (B.shows bank.old) address.number (dropped (readings_for self.now.state.force (length values.old)) (B.shows bank.old address.number)) }
    {
        self.weigh_all(bank, address, values)?;
        let Settings {
            format,
            nominal,
            ..
        } = self.state.force;
        Ok(format.write(values, address.number, nominal, out))
    }

    // Weighs once, and writes the value.
    #[tactic(auto, unfolding(crate::specs::Blocks::weighings))]
    fn write_one<B: GaugeBank>(
        &self,
        bank: &mut B,
        address: Address,
        out: &mut [u8],
    ) -> Result<usize, Fault>
        requires { readings_for self.now.state.force 1 ≤ length (B.shows bank.old address.number).waiting }
        ensures answer { result ≡ Ok (length (granted out.old (format_block self.now.state.force.format self.now.state.force.nominal address.number (weighings self.now.state.force 1 (B.shows bank.old address.number).waiting)))) }
        ensures buffer { out.new ≡ written out.old (format_block self.now.state.force.format self.now.state.force.nominal address.number (weighings self.now.state.force 1 (B.shows bank.old address.number).waiting)) }
        ensures after { B.shows bank.new ≡ put_port (B.shows bank.old) address.number (dropped (readings_for self.now.state.force 1) (B.shows bank.old address.number)) }
    {
        let measured = self.weigh(bank, address)?;
        let Settings {
            format,
            nominal,
            ..
        } = self.state.force;
        Ok(format.write(&[measured], address.number, nominal, out))
    }

    // Writes a block of so many values, or refuses where too few readings wait for all of them.
    pub(crate) fn write_block<B: GaugeBank>(
        &self,
        bank: &mut B,
        address: Address,
        count: u8,
        out: &mut [u8],
    ) -> Result<usize, Fault>
        requires { count ≤ most_values }
        ensures answer { result ≡ mapped_ok (λ bytes. length (granted out.old bytes)) (blocks address.number count self.now.state.force (B.shows bank.old address.number)) }
        ensures buffer { out.new ≡ written_by out.old (blocks address.number count self.now.state.force (B.shows bank.old address.number)) }
        ensures after { B.shows bank.new ≡ put_port (B.shows bank.old) address.number (block_port count self.now.state.force (B.shows bank.old address.number)) }
    {
        enough(
            bank,
            address,
            u16::from(count) * u16::from(self.state.force.averaging.readings()),
        )?;
        if count == 1 {
            return self.write_one(bank, address, out);
        }
        // An array of the most values, of which the first so many are used: a scale asks for no memory.
        let mut values = [UNMEASURED; MOST_VALUES];
        self.write_all(bank, address, &mut values[..usize::from(count)], out)
    }

    // Measures one value and holds it until the scale is selected.
    pub(crate) fn hold<B: GaugeBank>(&mut self, bank: &mut B, address: Address) -> Result<(), Fault>
        ensures answer { result ≡ mapped_ok (λ _. tt) (measures address.number self.old.state.force.averaging (B.shows bank.old address.number)) }
        ensures state { self.new.state ≡ holding self.old.state (measures address.number self.old.state.force.averaging (B.shows bank.old address.number)) }
        ensures ports { B.shows bank.new ≡ put_port (B.shows bank.old) address.number (measured_port self.old.state.force.averaging (B.shows bank.old address.number)) }
    {
        let readings = self.state.force.averaging.readings();
        enough(bank, address, u16::from(readings))?;
        self.state.held = Some(Ticket {
            measured: self.weigh(bank, address)?,
            format: self.state.force.format,
            nominal: self.state.force.nominal,
        });
        Ok(())
    }
}
