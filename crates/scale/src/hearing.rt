// One scale hears one command.
ghost use Rattle.std.specs.Prelude.{◌≡◌, ◌≤◌, ◌++◌, length, drop, Some, None};
ghost use Rattle.bank.specs.Fitting.{mapped_ok};
ghost use Rattle.value.specs.Written.{granted, written};
ghost use Rattle.scale.specs.declared.modes.Mode.TheVariants.{Selected, Broadcast};
ghost use Rattle.scale.specs.Answers.{answer_bytes};
ghost use Rattle.scale.specs.Blocks.{written_by};
ghost use Rattle.scale.specs.Measuring.{put_port};
ghost use Rattle.scale.specs.States.{fresh, with_held, with_memory};
ghost use Rattle.scale.specs.Laws.{ScaleLaws};
ghost use Rattle.scale.specs.Hearing.{held_answer, ordered_by, hears, within, Brief, Silent};
ghost use Rattle.scale.specs.Responding.{responds};

use crate::modes::Mode;
use crate::scale::Scale;
use crate::settings::Settings;
use crate::state::State;
use bank::{Address, GaugeBank};
use command::Heard;
use fault::{Cause, Fault};
use value::plain::Plain;

// What a scale wrote for a command, and why it refused.
#[derive(Clone, Copy)]
pub struct Hearing {
    pub written: usize,
    pub fault: Option<Fault>,
}

// Nothing was written, and nothing refused.
pub const SILENCE: Hearing = Hearing {
    written: 0,
    fault: None,
};

// Any answer has room in so many bytes.
pub const ROOM: usize = 1088;

impl Scale {
    // Remembers why it refuses.
    fn remember(&mut self, fault: Fault)
        ensures { self.new.state ≡ with_memory self.old.state (Some fault) }
    {
        self.state.memory = Some(fault);
    }

    // Hands out the held value, once.
    fn hand_out(&mut self, address: Address, out: &mut [u8]) -> usize
        ensures state { self.new.state ≡ with_held self.old.state None }
        ensures count { result ≡ length (granted out.old (answer_bytes address.number (held_answer self.old.state.held))) }
        ensures buffer { out.new ≡ written out.old (answer_bytes address.number (held_answer self.old.state.held)) }
    {
        let written = match &self.state.held {
            Some(ticket) => ticket.write(address, out),
            None => 0,
        };
        self.state.held = None;
        written
    }

    // Does what the selected scale is told: how many bytes it wrote, or why it refuses.
    fn comply<B: GaugeBank>(
        &mut self,
        address: Address,
        heard: Result<Heard, Fault>,
        bank: &mut B,
        out: &mut [u8],
    ) -> Result<usize, Fault>
        ensures answer { result ≡ mapped_ok (λ bytes. length (granted out.old bytes)) (responds Selected address.number heard self.old.state (B.shows bank.old address.number)).reply }
        ensures state { self.new.state ≡ (responds Selected address.number heard self.old.state (B.shows bank.old address.number)).state }
        ensures ports { B.shows bank.new ≡ put_port (B.shows bank.old) address.number (responds Selected address.number heard self.old.state (B.shows bank.old address.number)).port }
        ensures buffer { out.new ≡ written_by out.old (responds Selected address.number heard self.old.state (B.shows bank.old address.number)).reply }
    {
        match heard? {
            Heard::Blank => Ok(0),
            Heard::Select(_) => Ok(self.hand_out(address, out)),
            Heard::Command(order) => self.obey(address, order, bank, out),
        }
    }

    // Does what all are told, or tells why it refuses.
    fn comply_unheard<B: GaugeBank>(
        &mut self,
        address: Address,
        heard: Result<Heard, Fault>,
        bank: &mut B,
    ) -> Result<(), Fault>
        ensures answer { result ≡ mapped_ok (λ _. tt) (responds Broadcast address.number heard self.old.state (B.shows bank.old address.number)).reply }
        ensures state { self.new.state ≡ (responds Broadcast address.number heard self.old.state (B.shows bank.old address.number)).state }
        ensures ports { B.shows bank.new ≡ put_port (B.shows bank.old) address.number (responds Broadcast address.number heard self.old.state (B.shows bank.old address.number)).port }
    {
        match heard? {
            Heard::Blank | Heard::Select(_) => Ok(()),
            Heard::Command(order) => self.obey_unheard(address, order, bank),
        }
    }

    // The selected scale hears a command: it answers, or says `?` and remembers why.
    fn hear_alone<B: GaugeBank>(
        &mut self,
        address: Address,
        heard: Result<Heard, Fault>,
        bank: &mut B,
        out: &mut [u8],
    ) -> Hearing
        ensures state { self.new.state ≡ (ordered_by Selected (responds Selected address.number heard self.old.state (B.shows bank.old address.number))).state }
        ensures ports { B.shows bank.new ≡ put_port (B.shows bank.old) address.number (ordered_by Selected (responds Selected address.number heard self.old.state (B.shows bank.old address.number))).port }
        ensures count { result.written ≡ length (granted out.old (ordered_by Selected (responds Selected address.number heard self.old.state (B.shows bank.old address.number))).says) }
        ensures refusal { result.fault ≡ (ordered_by Selected (responds Selected address.number heard self.old.state (B.shows bank.old address.number))).fault }
        ensures buffer { out.new ≡ written out.old (ordered_by Selected (responds Selected address.number heard self.old.state (B.shows bank.old address.number))).says }
    {
        match self.comply(address, heard, bank, out) {
            Ok(written) => Hearing {
                written,
                fault: None,
            },
            Err(fault) => {
                self.remember(fault);
                Hearing {
                    written: Plain::Refused.write(out),
                    fault: Some(fault),
                }
            }
        }
    }

    // One of all hears a command: it says nothing, and remembers why it refuses.
    fn overhear<B: GaugeBank>(
        &mut self,
        address: Address,
        heard: Result<Heard, Fault>,
        bank: &mut B,
    )
        ensures state { self.new.state ≡ (ordered_by Broadcast (responds Broadcast address.number heard self.old.state (B.shows bank.old address.number))).state }
        ensures ports { B.shows bank.new ≡ put_port (B.shows bank.old) address.number (ordered_by Broadcast (responds Broadcast address.number heard self.old.state (B.shows bank.old address.number))).port }
    {
        if let Err(fault) = self.comply_unheard(address, heard, bank) {
            self.remember(fault);
        }
    }

    // Responds to what was read of one command, as the mode has it. It and `hear` are inlined, so that a caller who
    // gives one mode alone is compiled for that.
    #[inline(always)]
    #[tactic(auto, using(crate::proofs::Responses::hears_is, crate::proofs::Sayings::silent, crate::proofs::Responses::unheard))]
    fn respond<B: GaugeBank>(
        &mut self,
        mode: Mode,
        address: Address,
        heard: Result<Heard, Fault>,
        bank: &mut B,
        out: &mut [u8],
    ) -> Hearing
        ensures state { self.new.state ≡ (hears mode address.number heard self.old.state (B.shows bank.old address.number)).state }
        ensures ports { B.shows bank.new ≡ put_port (B.shows bank.old) address.number (hears mode address.number heard self.old.state (B.shows bank.old address.number)).port }
        ensures count { result.written ≡ length (granted out.old (hears mode address.number heard self.old.state (B.shows bank.old address.number)).says) }
        ensures refusal { result.fault ≡ (hears mode address.number heard self.old.state (B.shows bank.old address.number)).fault }
        ensures buffer { out.new ≡ written out.old (hears mode address.number heard self.old.state (B.shows bank.old address.number)).says }
    {
        match mode {
            Mode::Selected => self.hear_alone(address, heard, bank, out),
            Mode::Broadcast => {
                self.overhear(address, heard, bank);
                SILENCE
            }
        }
    }

    // A new scale has the factory settings, stored too, and is as after a restart.
    pub fn new() -> Scale
        ensures { result.state ≡ fresh }
    {
        let factory = Settings::factory();
        Scale {
            state: State {
                force: factory,
                stored: factory,
                pending: None,
                opened: false,
                held: None,
                memory: None,
            },
        }
    }

    // Hears one command, over its own port of the bank, and writes its answer to the front of `out`. A buffer under
    // 1,088 bytes is refused before anything else.
    #[inline(always)]
    pub fn hear<B: GaugeBank>(
        &mut self,
        mode: Mode,
        address: Address,
        heard: Result<Heard, Fault>,
        bank: &mut B,
        out: &mut [u8],
    ) -> Hearing
        ensures state { self.new.state ≡ (within (length out.old) mode address.number heard self.old.state (B.shows bank.old address.number)).state }
        ensures ports { B.shows bank.new ≡ put_port (B.shows bank.old) address.number (within (length out.old) mode address.number heard self.old.state (B.shows bank.old address.number)).port }
        ensures count { result.written ≡ length (within (length out.old) mode address.number heard self.old.state (B.shows bank.old address.number)).says }
        ensures refusal { result.fault ≡ (within (length out.old) mode address.number heard self.old.state (B.shows bank.old address.number)).fault }
        ensures buffer { out.new ≡ (within (length out.old) mode address.number heard self.old.state (B.shows bank.old address.number)).says ++ drop result.written out.old }
        ensures brief { Brief }
        ensures silent { Silent }
        ensures laws { ScaleLaws }
    {
        if out.len() < ROOM {
            return Hearing {
                written: 0,
                fault: Some(Cause::ShortBuffer.at(out.len())),
            };
        }
        self.respond(mode, address, heard, bank, out)
    }
}
