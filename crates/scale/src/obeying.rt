// One scale obeys one order.
ghost use Rattle.std.specs.Prelude.{◌≡◌, length};
ghost use Rattle.bank.specs.Fitting.{mapped_ok};
ghost use Rattle.value.specs.Written.{granted};
ghost use Rattle.bank.specs.Ports.{none};
ghost use Rattle.command.specs.declared.orders.Form.TheVariants.{Entry};
ghost use Rattle.scale.specs.declared.modes.Mode.TheVariants.{Selected, Broadcast};
ghost use Rattle.scale.specs.Blocks.{written_by};
ghost use Rattle.scale.specs.Measuring.{put_port};
ghost use Rattle.scale.specs.Hearing.{aside, spoken, permitted, obeys};
ghost use Rattle.scale.specs.Orders.{task_of};
ghost use Rattle.scale.specs.Queries.{asks};
ghost use Rattle.scale.specs.Responding.{answer_of, acts};

use crate::answers::Entered;
use crate::orders::{asks_values, block_size_of};
use crate::scale::Scale;
use bank::{Address, GaugeBank};
use command::{Form, Mnemonic, Order, in_broadcast, needs_password};
use fault::{Cause, Fault};

impl Scale {
    // Refuses what needs the password while the scale is closed.
    fn permit(&self, address: Address, order: Order) -> Result<(), Fault>
        ensures { permitted address.number self.now.state order ≡ mapped_ok (λ _. order) result }
    {
        if needs_password(&order) && !self.state.opened {
            return Err(Cause::PasswordClosed.at(address.index()));
        }
        Ok(())
    }

    // Does what an admitted entry asks: how it is answered, or why it is refused.
    fn act<B: GaugeBank>(
        &mut self,
        address: Address,
        order: Order,
        bank: &mut B,
    ) -> Result<Entered, Fault>
        requires { order.form ≡ Entry }
        ensures answer { mapped_ok answer_of result ≡ (acts (task_of order.form order.name) address.number order self.old.state (B.shows bank.old address.number)).reply }
        ensures state { self.new.state ≡ (acts (task_of order.form order.name) address.number order self.old.state (B.shows bank.old address.number)).state }
        ensures ports { B.shows bank.new ≡ put_port (B.shows bank.old) address.number (acts (task_of order.form order.name) address.number order self.old.state (B.shows bank.old address.number)).port }
    {
        match order.name {
            Mnemonic::Ldw => self.keep_dead(bank, address, order),
            Mnemonic::Lwt => self.set_full(bank, address, order),
            Mnemonic::Tar => self.take_tare(bank, address),
            _ => self.enter(address, order),
        }
    }

    // Answers a query that needs no gauge: how many bytes were written, or why it is refused.
    fn tell(&mut self, address: Address, order: Order, out: &mut [u8]) -> Result<usize, Fault>
        ensures answer { result ≡ mapped_ok (λ bytes. length (granted out.old bytes)) (aside Selected address.number none (asks order self.old.state)).reply }
        ensures state { self.new.state ≡ (asks order self.old.state).state }
        ensures buffer { out.new ≡ written_by out.old (aside Selected address.number none (asks order self.old.state)).reply }
    {
        Ok(self.ask(order)?.write(address, out))
    }

    // Obeys an order that is not for measured values: how many bytes of answer were written, or why it is refused.
    fn answer<B: GaugeBank>(
        &mut self,
        address: Address,
        order: Order,
        bank: &mut B,
        out: &mut [u8],
    ) -> Result<usize, Fault>
        ensures answer { result ≡ mapped_ok (λ bytes. length (granted out.old bytes)) (spoken Selected address.number (acts (task_of order.form order.name) address.number order self.old.state (B.shows bank.old address.number))).reply }
        ensures state { self.new.state ≡ (acts (task_of order.form order.name) address.number order self.old.state (B.shows bank.old address.number)).state }
        ensures ports { B.shows bank.new ≡ put_port (B.shows bank.old) address.number (acts (task_of order.form order.name) address.number order self.old.state (B.shows bank.old address.number)).port }
        ensures buffer { out.new ≡ written_by out.old (spoken Selected address.number (acts (task_of order.form order.name) address.number order self.old.state (B.shows bank.old address.number))).reply }
    {
        match order.form {
            Form::Entry => Ok(self.act(address, order, bank)?.write(out)),
            Form::Query => self.tell(address, order, out),
        }
    }

    // Obeys such an order and answers nothing, or tells why it is refused.
    fn act_unheard<B: GaugeBank>(
        &mut self,
        address: Address,
        order: Order,
        bank: &mut B,
    ) -> Result<(), Fault>
        ensures answer { result ≡ mapped_ok (λ _. tt) (spoken Broadcast address.number (acts (task_of order.form order.name) address.number order self.old.state (B.shows bank.old address.number))).reply }
        ensures state { self.new.state ≡ (acts (task_of order.form order.name) address.number order self.old.state (B.shows bank.old address.number)).state }
        ensures ports { B.shows bank.new ≡ put_port (B.shows bank.old) address.number (acts (task_of order.form order.name) address.number order self.old.state (B.shows bank.old address.number)).port }
    {
        match order.form {
            Form::Entry => {
                self.act(address, order, bank)?;
            }
            Form::Query => {
                self.ask(order)?;
            }
        }
        Ok(())
    }

    // The selected scale obeys one order, if it may: how many bytes of answer were written, or why it is refused.
    #[tactic(auto, unfolding(crate::specs::Hearing::obeys))]
    pub(crate) fn obey<B: GaugeBank>(
        &mut self,
        address: Address,
        order: Order,
        bank: &mut B,
        out: &mut [u8],
    ) -> Result<usize, Fault>
        ensures answer { result ≡ mapped_ok (λ bytes. length (granted out.old bytes)) (obeys Selected address.number order self.old.state (B.shows bank.old address.number)).reply }
        ensures state { self.new.state ≡ (obeys Selected address.number order self.old.state (B.shows bank.old address.number)).state }
        ensures ports { B.shows bank.new ≡ put_port (B.shows bank.old) address.number (obeys Selected address.number order self.old.state (B.shows bank.old address.number)).port }
        ensures buffer { out.new ≡ written_by out.old (obeys Selected address.number order self.old.state (B.shows bank.old address.number)).reply }
    {
        self.permit(address, order)?;
        if asks_values(order) {
            return self.write_block(bank, address, block_size_of(order)?, out);
        }
        self.answer(address, order, bank, out)
    }

    // One of all obeys an order, if it may, and answers nothing; it measures one value and holds it.
    #[tactic(auto, unfolding(crate::specs::Hearing::obeys))]
    pub(crate) fn obey_unheard<B: GaugeBank>(
        &mut self,
        address: Address,
        order: Order,
        bank: &mut B,
    ) -> Result<(), Fault>
        ensures answer { result ≡ mapped_ok (λ _. tt) (obeys Broadcast address.number order self.old.state (B.shows bank.old address.number)).reply }
        ensures state { self.new.state ≡ (obeys Broadcast address.number order self.old.state (B.shows bank.old address.number)).state }
        ensures ports { B.shows bank.new ≡ put_port (B.shows bank.old) address.number (obeys Broadcast address.number order self.old.state (B.shows bank.old address.number)).port }
    {
        let order = in_broadcast(order)?;
        self.permit(address, order)?;
        if asks_values(order) {
            block_size_of(order)?;
            return self.hold(bank, address);
        }
        self.act_unheard(address, order, bank)
    }
}
