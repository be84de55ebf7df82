// Obeying one command.
ghost use Rattle.std.specs.Prelude.{◌≡◌, ◌≤◌, ◌++◌, length, drop, if◌then◌else◌, None, nat_eq};
ghost use Rattle.terminal.specs.Ears.{everyone, listens};
ghost use Rattle.terminal.specs.Buses.{present, lets, meeting, hearing, passed, silence, spoken, heeded, worded, word_of, told, uttered, returned, silent, bus};

use crate::answers::{Obeyed, ROOM};
use crate::listening::Listening;
use crate::terminal::{SCALES, Terminal};
use bank::{Address, GaugeBank};
use command::{Heard, read};
use fault::{Cause, Fault};
use scale::{Mode, SILENCE, Scale};

impl<B: GaugeBank> Terminal<B> {
    // A terminal over a bank, with 32 new scales; nobody listens.
    pub fn new(bank: B) -> Terminal<B>
        ensures { bus B.shows result ≡ silent (B.shows bank) }
    {
        Terminal {
            bank,
            scales: [Scale::new(); SCALES],
            listening: Listening::Nobody,
        }
    }

    // Whether a scale is present: the port of its address has a gauge.
    fn is_present(&self, address: Address) -> bool
        ensures { result ≡ present (B.shows self.now.bank address.number) }
    {
        self.bank
            .gauges(address.number)
            .is_ok_and(|gauges| gauges > 0)
    }

    // The scale at an address hears a command in a mode, if it is present, and writes its answer to the front of `out`.
    // Inlined, since each caller gives one mode alone.
    #[inline(always)]
    fn tell(
        &mut self,
        mode: Mode,
        address: Address,
        heard: Result<Heard, Fault>,
        out: &mut [u8; ROOM],
    ) -> Obeyed
        ensures state { bus B.shows self.new ≡ hearing (λ x. (if nat_eq x address.number then lets mode (present (B.shows self.old.bank x)) else None)) (bus B.shows self.old) heard }
        ensures value { result ≡ returned (word_of (meeting (lets mode (present (B.shows self.old.bank address.number))) (bus B.shows self.old) heard address.number)) }
        ensures buffer { out.new ≡ (meeting (lets mode (present (B.shows self.old.bank address.number))) (bus B.shows self.old) heard address.number).says ++ drop result.written out.old }
    {
        if !self.is_present(address) {
            return SILENCE;
        }
        self.scales[address.index()].hear(mode, address, heard, &mut self.bank, out)
    }

    // A broadcast: every scale that is present hears it, and nobody answers. The select of all asks nothing of any scale.
    fn broadcast(&mut self, heard: Result<Heard, Fault>) -> Obeyed
        ensures state { bus B.shows self.new ≡ hearing (λ x. listens everyone x (present (B.shows self.old.bank x))) (bus B.shows self.old) heard }
        ensures value { result ≡ returned silence }
    {
        if let Ok(Heard::Select(_)) = heard {
            return SILENCE;
        }
        let mut unsaid = [0; ROOM];
        for address in Address::all() {
            self.tell(Mode::Broadcast, address, heard, &mut unsaid);
        }
        SILENCE
    }

    // Passes a command on to those who listen, and writes what the selected scale answers.
    fn pass_on(&mut self, heard: Result<Heard, Fault>, answer: &mut [u8; ROOM]) -> Obeyed
        ensures state { bus B.shows self.new ≡ passed (bus B.shows self.old) heard }
        ensures value { result ≡ returned (spoken (bus B.shows self.old) heard) }
        ensures buffer { answer.new ≡ (spoken (bus B.shows self.old) heard).says ++ drop result.written answer.old }
    {
        match self.listening {
            Listening::Nobody => SILENCE,
            Listening::One(address) => self.tell(Mode::Selected, address, heard, answer),
            Listening::All => self.broadcast(heard),
        }
    }

    // One command as it was read: a select turns who listens first, and a blank command does nothing.
    fn heed(&mut self, heard: Result<Heard, Fault>, answer: &mut [u8; ROOM]) -> Obeyed
        ensures state { bus B.shows self.new ≡ heeded (bus B.shows self.old) heard }
        ensures value { result ≡ returned (worded (bus B.shows self.old) heard) }
        ensures buffer { answer.new ≡ (worded (bus B.shows self.old) heard).says ++ drop result.written answer.old }
    {
        match heard {
            Ok(Heard::Blank) => return SILENCE,
            Ok(Heard::Select(pair)) => self.listening = Listening::call(pair),
            _ => {}
        }
        self.pass_on(heard, answer)
    }

    // Obeys all its bytes as one command, and writes the answer to the front of `answer`. A buffer under 1,088 bytes is refused before anything else.
    pub fn obey(&mut self, command: &[u8], answer: &mut [u8]) -> Obeyed
        ensures state { bus B.shows self.new ≡ told (length answer.old) (bus B.shows self.old) command.now }
        ensures value { result ≡ returned (uttered (length answer.old) (bus B.shows self.old) command.now) }
        ensures buffer { answer.new ≡ (uttered (length answer.old) (bus B.shows self.old) command.now).says ++ drop result.written answer.old }
        ensures within { result.written ≤ length answer.old }
    {
        let Some(answer) = answer.first_chunk_mut::<ROOM>() else {
            return Obeyed {
                written: 0,
                fault: Some(Cause::ShortBuffer.at(answer.len())),
            };
        };
        self.heed(read(command), answer)
    }
}
