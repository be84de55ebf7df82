// What a script asks for, and why a line of it is refused.
ghost use Rattle.std.specs.Prelude.{◌≡◌, Some};
ghost use Rattle.halls.specs.Order.{stage_of, suited};
ghost use Rattle.halls.specs.Said.{reason_text};

use crate::stages::Stage;
use bank::Record;
use junction::Join;
use std::fmt;

// The kinds of bank.
#[derive(Clone, Copy, PartialEq, Eq)]
pub enum Kind {
    Dials,
    Recording,
}

// Bytes for a terminal, and the room for what it answers.
#[derive(Drop)]
pub struct Talk {
    pub room: usize,
    pub bytes: Vec<u8>,
}

// One request.
#[derive(Drop)]
pub enum Request {
    Bank(Kind),
    Fit {
        port: u8,
        thousandths: u16,
    },
    Set {
        port: u8,
        digits: i32,
        conversions: u16,
    },
    Record(Record),
    Join {
        stage: Stage,
        join: Join,
    },
    Gauges(u8),
    Waiting(u8),
    Take(u8),
    Obey(Talk),
    Serve(Talk),
    Split(Vec<u8>),
}

impl Request {
    // The stage that the request belongs to; splitting belongs to any.
    pub fn stage(&self) -> Option<Stage>
        ensures { result ≡ stage_of self.now }
    {
        match self {
            Request::Bank(_) => Some(Stage::Opening),
            Request::Fit { .. } | Request::Set { .. } | Request::Record(_) => Some(Stage::Fitting),
            Request::Join { stage, .. } => Some(*stage),
            Request::Gauges(_) | Request::Waiting(_) | Request::Take(_) => Some(Stage::Asking),
            Request::Obey(_) | Request::Serve(_) => Some(Stage::Talking),
            Request::Split(_) => None,
        }
    }

    // Whether a bank of this kind knows the request: only dials are set, and only a recording has records.
    pub fn suits(&self, kind: Kind) -> bool
        ensures { result ≡ suited self.now kind }
    {
        match self {
            Request::Set { .. } => kind == Kind::Dials,
            Request::Record(_) => kind == Kind::Recording,
            _ => true,
        }
    }
}

// Why a line is refused.
#[derive(Clone, Copy)]
pub enum Reason {
    OutOfOrder,
    Unknown,
    Malformed,
    OtherBank,
}

impl fmt::Display for Reason {
    ghost output = { λ r. Some (reason_text r) };

    fn fmt<W: fmt::Write>(&self, f: &mut fmt::Formatter<W>) -> fmt::Result {
        f.write_str(match self {
            Reason::OutOfOrder => "out of order",
            Reason::Unknown => "unknown request",
            Reason::Malformed => "malformed",
            Reason::OtherBank => "no such request for this bank",
        })
    }
}
