// The queries that need no gauge.
ghost use Rattle.std.specs.Prelude.{◌≡◌};
ghost use Rattle.scale.specs.Queries.{tells, asks};

use crate::answers::Answer;
use crate::scale::Scale;
use command::{Mnemonic, Order};
use fault::{Cause, Fault};
use value::plain::Plain;
use value::scaling::whole_digits;

impl Scale {
    // What a query asks for, if it is one that needs no gauge and alters nothing.
    fn told(&self, name: Mnemonic) -> Option<Answer>
        ensures { result ≡ tells name self.now.state }
    {
        let force = &self.state.force;
        let plain = match name {
            Mnemonic::Cof => Plain::ThreeDigits(force.format.number()),
            Mnemonic::Icr => Plain::Digit(force.averaging.number()),
            Mnemonic::Nov => Plain::Signed(i64::from(force.nominal)),
            Mnemonic::Rsn => Plain::ThreeDigits(force.step.value()),
            Mnemonic::Ldw => Plain::Signed(whole_digits(force.dead)),
            Mnemonic::Lwt => Plain::Signed(whole_digits(force.full)),
            Mnemonic::Tas => Plain::Digit(force.display.number()),
            Mnemonic::Tav => return Some(Answer::Value(self.tare_ticket())),
            Mnemonic::Esr => return Some(Answer::Memory(self.state.memory)),
            _ => return None,
        };
        Some(Answer::Line(plain))
    }

    // Answers a query that needs no gauge; the fault memory is cleared once it is told.
    pub(crate) fn ask(&mut self, order: Order) -> Result<Answer, Fault>
        ensures answer { result ≡ (asks order self.old.state).reply }
        ensures state { self.new.state ≡ (asks order self.old.state).state }
    {
        let answer = self
            .told(order.name)
            .ok_or(Cause::UnknownCommand.at(order.place))?;
        if let Answer::Memory(_) = answer {
            self.state.memory = None;
        }
        Ok(answer)
    }
}
