// What a scale says to a command.
ghost use Rattle.std.specs.Prelude.{◌≡◌, length};
ghost use Rattle.value.specs.Written.{granted, written};
ghost use Rattle.scale.specs.Answers.{ticket_bytes, answer_bytes};
ghost use Rattle.scale.specs.Responding.{entered_bytes};

use crate::state::Ticket;
use bank::Address;
use fault::{Fault, memory_text};
use value::plain::{Plain, write_line};

// Nothing, a plain line, the text of a fault memory, or a measured value.
#[derive(Clone, Copy)]
pub enum Answer {
    Silence,
    Line(Plain),
    Memory(Option<Fault>),
    Value(Ticket),
}

// How an entry that was obeyed is answered: by `0`, or not at all.
#[derive(Clone, Copy)]
pub enum Entered {
    Answered,
    Silent,
}

impl Entered {
    // Writes the answer to the front of the buffer, or nothing where it has no room.
    pub(crate) fn write(self, out: &mut [u8]) -> usize
        ensures count { result ≡ length (granted out.old (entered_bytes self)) }
        ensures buffer { out.new ≡ written out.old (entered_bytes self) }
    {
        match self {
            Entered::Answered => Plain::Done.write(out),
            Entered::Silent => 0,
        }
    }
}

impl Ticket {
    // Writes the value of the scale at an address to the front of the buffer, or nothing where it has no room.
    pub(crate) fn write(&self, address: Address, out: &mut [u8]) -> usize
        ensures count { result ≡ length (granted out.old (ticket_bytes address.number self.now)) }
        ensures buffer { out.new ≡ written out.old (ticket_bytes address.number self.now) }
    {
        self.format
            .write(&[self.measured], address.number, self.nominal, out)
    }
}

impl Answer {
    // Writes the answer of the scale at an address to the front of the buffer, or nothing where it has no room.
    pub(crate) fn write(self, address: Address, out: &mut [u8]) -> usize
        ensures count { result ≡ length (granted out.old (answer_bytes address.number self)) }
        ensures buffer { out.new ≡ written out.old (answer_bytes address.number self) }
    {
        match self {
            Answer::Silence => 0,
            Answer::Line(plain) => plain.write(out),
            Answer::Memory(memory) => write_line(&memory_text(memory), out),
            Answer::Value(ticket) => ticket.write(address, out),
        }
    }
}
