// What a request is answered by, and how it is printed.
ghost use Rattle.std.specs.Prelude.{◌≡◌, MatchResult, Some};
ghost use Rattle.halls.specs.declared.answers.Answer.TheVariants.{Done, Count, Taken, Faulty};
ghost use Rattle.halls.specs.Said.{said, said_text, mark_text, fault_text};

use crate::requests::Reason;
use crate::tail::Tail;
use bank::{Mark, Reading};
use fault::Fault;
use std::fmt;
use terminal::{Obeyed, Served};

// An answer. That to a split lends the bytes of its request.
#[derive(Drop)]
pub enum Answer<'a> {
    Done,
    Refused(Reason),
    Faulty(Fault),
    Count(u16),
    Taken(Reading),
    Cut { used: usize, bytes: &'a [u8] },
    Obeying { obeyed: Obeyed, bytes: Vec<u8> },
    Serving { served: Served, bytes: Vec<u8> },
}

impl From<()> for Answer<'_> {
    ghost from_gives = { λ _ a. a ≡ Done };

    fn from(_done: ()) -> Self {
        Answer::Done
    }
}

impl From<u16> for Answer<'_> {
    ghost from_gives = { λ count a. a ≡ Count count };

    fn from(count: u16) -> Self {
        Answer::Count(count)
    }
}

impl From<Reading> for Answer<'_> {
    ghost from_gives = { λ reading a. a ≡ Taken reading };

    fn from(reading: Reading) -> Self {
        Answer::Taken(reading)
    }
}

// The answer to a request that may be refused.
impl<'a, T: Into<Answer<'a>>> From<Result<T, Fault>> for Answer<'a> {
    ghost from_gives = { λ res a. MatchResult res (λ x. T.converts x a) (λ fault. a ≡ Faulty fault) };

    fn from(res: Result<T, Fault>) -> Self {
        match res {
            Ok(told) => told.into(),
            Err(fault) => Answer::Faulty(fault),
        }
    }
}

// The words of a reading's mark.
fn words(mark: Mark) -> &'static str
    ensures { result.now ≡ mark_text mark.overdriven }
{
    if mark.overdriven {
        "overdriven"
    } else {
        "in range"
    }
}

// A fault that is told beside an answer, if there is one.
#[derive(Drop)]
struct Beside(Option<Fault>);

impl fmt::Display for Beside {
    ghost output = { λ b. Some (fault_text b.0) };

    fn fmt<W: fmt::Write>(&self, f: &mut fmt::Formatter<W>) -> fmt::Result {
        match self.0 {
            Some(fault) => write!(f, " fault {fault}"),
            None => Ok(()),
        }
    }
}

impl fmt::Display for Answer<'_> {
    ghost output = { λ a. Some (said_text (said a)) };

    fn fmt<W: fmt::Write>(&self, f: &mut fmt::Formatter<W>) -> fmt::Result {
        match self {
            Answer::Done => f.write_str("ok"),
            Answer::Refused(reason) => write!(f, "{reason}"),
            Answer::Faulty(fault) => write!(f, "fault {fault}"),
            Answer::Count(count) => write!(f, "{count}"),
            Answer::Taken(reading) => write!(f, "{} {}", reading.load, words(reading.mark)),
            Answer::Cut { used, bytes } => write!(f, "used {used}:{}", Tail(bytes)),
            Answer::Obeying { obeyed, bytes } => {
                let beside = Beside(obeyed.fault);
                write!(
                    f,
                    "written {}{beside}:{}",
                    obeyed.written,
                    Tail(bytes.as_slice())
                )
            }
            Answer::Serving { served, bytes } => {
                let Served {
                    used,
                    written,
                    stopped,
                } = served;
                write!(
                    f,
                    "used {used} written {written} stopped {}:{}",
                    stopped.number(),
                    Tail(bytes.as_slice())
                )
            }
        }
    }
}
