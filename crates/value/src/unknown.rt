// A number that stands for nothing.
ghost use Rattle.std.specs.Prelude.{Some};
ghost use Rattle.value.specs.Numbers.{unknown_text};

use std::error::Error;
use std::fmt;

// A number that no setting of the kind that was asked for has.
#[derive(Clone, Copy, Debug, PartialEq, Eq)]
pub struct UnknownNumber(pub u8);

impl fmt::Display for UnknownNumber {
    ghost output = { λ e. Some (unknown_text e) };

    fn fmt<W: fmt::Write>(&self, f: &mut fmt::Formatter<W>) -> fmt::Result {
        write!(f, "nothing has the number {}", self.0)
    }
}

impl Error for UnknownNumber {}
