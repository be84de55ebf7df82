// The entries that need no gauge: settings, passwords, storing and restarting.
ghost use Rattle.std.specs.Prelude.{◌≡◌};
ghost use Rattle.bank.specs.Fitting.{mapped_ok};
ghost use Rattle.scale.specs.Responding.{answer_of};
ghost use Rattle.scale.specs.Entries.{sets, unlocks, relocks, defaults, restarts, enters};

use crate::answers::Entered;
use crate::orders::{number_of, text_of};
use crate::scale::Scale;
use crate::settings::Settings;
use bank::Address;
use command::{Mnemonic, Order};
use fault::{Cause, Fault};

impl Scale {
    // Enters a setting.
    fn set(&mut self, order: Order) -> Result<Entered, Fault>
        ensures answer { mapped_ok answer_of result ≡ (sets order self.old.state).reply }
        ensures state { self.new.state ≡ (sets order self.old.state).state }
    {
        let n = number_of(order)?;
        let entered = self.state.force.enter(order.name, n);
        entered.ok_or(Cause::OutOfRange.at(order.place))?;
        Ok(Entered::Answered)
    }

    // Opens the scale by its password; another text closes it.
    fn unlock(&mut self, address: Address, order: Order) -> Result<Entered, Fault>
        ensures answer { mapped_ok answer_of result ≡ (unlocks address.number order self.old.state).reply }
        ensures state { self.new.state ≡ (unlocks address.number order self.old.state).state }
    {
        let text = text_of(order)?;
        self.state.opened = text.same(self.state.force.password);
        if !self.state.opened {
            return Err(Cause::WrongPassword.at(address.index()));
        }
        Ok(Entered::Answered)
    }

    // Sets a new password, stores it, and closes the scale.
    fn relock(&mut self, order: Order) -> Result<Entered, Fault>
        ensures answer { mapped_ok answer_of result ≡ (relocks order self.old.state).reply }
        ensures state { self.new.state ≡ (relocks order self.old.state).state }
    {
        let text = text_of(order)?;
        self.state.force.password = text;
        self.state.stored.password = text;
        self.state.opened = false;
        Ok(Entered::Answered)
    }

    // Sets the factory values in force and stored at 0, and stores the settings in force at 1.
    fn set_defaults(&mut self, order: Order) -> Result<Entered, Fault>
        ensures answer { mapped_ok answer_of result ≡ (defaults order self.old.state).reply }
        ensures state { self.new.state ≡ (defaults order self.old.state).state }
    {
        match number_of(order)? {
            0 => {
                self.state.force = Settings::factory();
                self.state.stored = self.state.force;
                self.state.pending = None;
            }
            1 => self.state.stored = self.state.force,
            _ => return Err(Cause::OutOfRange.at(order.place)),
        }
        Ok(Entered::Answered)
    }

    // Puts the stored settings in force and forgets all else; it has no answer.
    fn restart(&mut self) -> Result<Entered, Fault>
        ensures answer { mapped_ok answer_of result ≡ (restarts self.old.state).reply }
        ensures state { self.new.state ≡ (restarts self.old.state).state }
    {
        self.state.force = self.state.stored;
        self.state.pending = None;
        self.state.opened = false;
        self.state.held = None;
        self.state.memory = None;
        Ok(Entered::Silent)
    }

    // Obeys an entry that needs no gauge.
    pub(crate) fn enter(&mut self, address: Address, order: Order) -> Result<Entered, Fault>
        ensures answer { mapped_ok answer_of result ≡ (enters address.number order self.old.state).reply }
        ensures state { self.new.state ≡ (enters address.number order self.old.state).state }
    {
        match order.name {
            Mnemonic::Cof | Mnemonic::Icr | Mnemonic::Nov | Mnemonic::Rsn | Mnemonic::Tas => {
                self.set(order)
            }
            Mnemonic::Spw => self.unlock(address, order),
            Mnemonic::Dpw => self.relock(order),
            Mnemonic::Tdd => self.set_defaults(order),
            Mnemonic::Res => self.restart(),
            _ => Err(Cause::UnknownCommand.at(order.place)),
        }
    }
}
