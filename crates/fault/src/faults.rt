// A refusal: its cause and its place.
ghost use Rattle.std.specs.Prelude.{◌≡◌, Some};
ghost use Rattle.fault.specs.Causes.{described};
ghost use Rattle.fault.specs.Printed.{printed};

use crate::{Cause, Layer};
use std::error::Error;
use std::fmt;

// What a refused call returns. The place is a byte of the command, a length, an address or a port, as the cause has it.
#[derive(Clone, Copy, Debug, PartialEq, Eq)]
pub struct Fault {
    pub cause: Cause,
    pub place: usize,
}

impl Fault {
    // The number of the cause.
    pub fn number(self) -> u8
        ensures { result ≡ (described self.cause).number }
    {
        self.cause.number()
    }

    // The layer of the cause.
    pub fn layer(self) -> Layer
        ensures { result ≡ (described self.cause).layer }
    {
        self.cause.layer()
    }
}

// The number, the layer and the place, as in a fault memory, with all digits of the place.
impl fmt::Display for Fault {
    ghost output = { λ f. Some (printed f) };

    fn fmt<W: fmt::Write>(&self, f: &mut fmt::Formatter<W>) -> fmt::Result {
        let number = self.number();
        let letter = char::from(self.layer().letter());
        let place = self.place;
        write!(f, "{number:03},{letter},{place:03}")
    }
}

impl Error for Fault {}
