// What a bank of gauges means, and its calls.
ghost use Rattle.std.specs.Prelude.{◌≡◌, ℕ, Ok};
ghost use Rattle.bank.specs.Addresses.{number_of};
ghost use Rattle.bank.specs.Fitting.{mapped_ok};
ghost use Rattle.bank.specs.Ports.{Port, Sound, ranged, gauges_at, waiting_at, first_at, rest_at};

use crate::{Address, Reading};
use fault::{Cause, Fault};

// The address of a port, or the refusal of one above 31.
pub fn checked_port(port: u8) -> Result<Address, Fault>
    ensures { mapped_ok number_of result ≡ ranged port (Ok port) }
{
    Address::new(port).ok_or(Cause::PortRange.at(port as usize))
}

// A bank of gauges at ports 0 to 31. It means a gauge count and a list of waiting readings for each port, within the limits of `Sound`.
pub trait GaugeBank {
    ghost shows: { Self → ℕ → Port };

    ghost sound: { (s : Self) (p : ℕ) → Sound (shows s p) };

    // How many gauges stand at a port.
    fn gauges(&self, port: u8) -> Result<u8, Fault>
        ensures { result ≡ gauges_at (shows self.now) port };

    // How many readings wait at a port.
    fn waiting(&self, port: u8) -> Result<u16, Fault>
        ensures { result ≡ waiting_at (shows self.now) port };

    // Takes the first reading of a port.
    fn take(&mut self, port: u8) -> Result<Reading, Fault>
        ensures answer { result ≡ first_at (shows self.old) port }
        ensures after { shows self.new ≡ rest_at (shows self.old) port };
}
