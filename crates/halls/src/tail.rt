// The bytes that end a printed line.
ghost use Rattle.std.specs.Prelude.{Some};
ghost use Rattle.halls.specs.Escapes.{escaped};
ghost use Rattle.halls.specs.Said.{tail_text};

use crate::spelling::Spelling;
use std::fmt;

// Bytes as printable text.
#[derive(Drop)]
struct Escaped<'a>(&'a [u8]);

impl fmt::Display for Escaped<'_> {
    ghost output = { λ e. Some (escaped e.0.now) };

    fn fmt<W: fmt::Write>(&self, f: &mut fmt::Formatter<W>) -> fmt::Result {
        for byte in self.0 {
            write!(f, "{}", Spelling::from(*byte))?;
        }
        Ok(())
    }
}

// Bytes at the end of a line: nothing where there are none, else a space and the text that stands for them.
#[derive(Drop)]
pub struct Tail<'a>(pub &'a [u8]);

impl fmt::Display for Tail<'_> {
    ghost output = { λ t. Some (tail_text t.0.now) };

    fn fmt<W: fmt::Write>(&self, f: &mut fmt::Formatter<W>) -> fmt::Result {
        if self.0.is_empty() {
            return Ok(());
        }
        write!(f, " {}", Escaped(self.0))
    }
}
