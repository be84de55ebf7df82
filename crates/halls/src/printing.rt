// What is printed for a line of a script.
ghost use Rattle.std.specs.Prelude.{Some};
ghost use Rattle.halls.specs.Said.{reply_of, reply_text};

use crate::answers::Answer;
use std::fmt;

// The number of a line, and what it is answered by.
#[derive(Drop)]
pub struct Reply<'a> {
    pub line: usize,
    pub answer: Answer<'a>,
}

// Only a refused line is named by its number.
impl fmt::Display for Reply<'_> {
    ghost output = { λ r. Some (reply_text (reply_of r)) };

    fn fmt<W: fmt::Write>(&self, f: &mut fmt::Formatter<W>) -> fmt::Result {
        match &self.answer {
            Answer::Refused(reason) => write!(f, "line {}: {reason}", self.line),
            answer => write!(f, "{answer}"),
        }
    }
}
