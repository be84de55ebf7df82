// What obeying and serving return.
ghost use Rattle.std.specs.Prelude.{◌≡◌};
ghost use Rattle.terminal.specs.Stops.{stop_number};

// How many bytes one command was answered by, and the fault of the selected scale that refused it.
pub use scale::Hearing as Obeyed;

// Every answer has room in so many bytes; a buffer with less is refused.
pub use scale::ROOM;

// Why serving stopped: at the end of the run, for want of an end character, or for want of room.
#[derive(Clone, Copy)]
pub enum Stop {
    End = 0,
    NoEnd = 1,
    ShortBuffer = 2,
}

impl Stop {
    // The number of the reason.
    pub fn number(self) -> u8
        ensures { result ≡ stop_number self }
    {
        self as u8
    }
}

// How many bytes of a run were used and how many of answers written, and why serving stopped.
#[derive(Clone, Copy)]
pub struct Served {
    pub used: usize,
    pub written: usize,
    pub stopped: Stop,
}
