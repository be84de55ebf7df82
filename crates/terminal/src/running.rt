// A run: a new terminal is given a list of calls.
ghost use Rattle.std.specs.Prelude.{◌≡◌, map};
ghost use Rattle.terminal.specs.Buses.{bus};
ghost use Rattle.terminal.specs.Calls.{ask_of, next, exchanged};
ghost use Rattle.terminal.specs.Laws.{Came};

use crate::calls::{Call, Exchange, Outcome};
use crate::terminal::Terminal;
use bank::GaugeBank;

impl<B: GaugeBank> Terminal<B> {
    // Makes the call of an exchange, and writes into it what the call returned and answered.
    fn make(&mut self, exchange: &mut Exchange<'_>)
        ensures state { bus B.shows self.new ≡ next (bus B.shows self.old) (ask_of exchange.old) }
        ensures exchange { exchange.new ≡ exchanged (bus B.shows self.old) exchange.old }
    {
        let outcome = match exchange.call {
            Call::Obey(command) => Outcome::Command(self.obey(command, &mut exchange.answers)),
            Call::Serve(run) => Outcome::Run(self.serve(run, &mut exchange.answers)),
        };
        exchange.outcome = Some(outcome);
    }
}

// A new terminal over a bank is given the calls of the exchanges in order.
pub fn run<B: GaugeBank + Drop>(bank: B, exchanges: &mut [Exchange<'_>]) -> Terminal<B>
    ensures laws { Came (B.shows bank) exchanges.old (bus B.shows result) exchanges.new }
{
    let mut terminal = Terminal::new(bank);
    for exchange in exchanges.iter_mut() {
        terminal.make(exchange);
    }
    terminal
}
