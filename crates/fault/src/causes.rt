// The causes of a refusal, and the layer that each belongs to.
ghost use Rattle.std.specs.Prelude.{◌≡◌};
ghost use Rattle.fault.specs.Causes.{described, letter_of, Numbered};
ghost use Rattle.fault.specs.Faults.{refusal};

use crate::Fault;

// Where a refusal arose.
#[derive(Clone, Copy, Debug, PartialEq, Eq)]
pub enum Layer {
    Line,
    Command,
    Weighing,
    Bank,
}

impl Layer {
    // The letter by which a fault text names the layer.
    pub fn letter(self) -> u8
        ensures { result ≡ letter_of self }
    {
        match self {
            Layer::Line => b'L',
            Layer::Command => b'C',
            Layer::Weighing => b'W',
            Layer::Bank => b'B',
        }
    }
}

// Why a call refuses; the discriminant is the cause's number on the bus.
#[derive(Clone, Copy, Debug, PartialEq, Eq)]
pub enum Cause {
    NoEnd = 1,
    ShortBuffer = 2,
    LongCommand = 3,
    UnknownCommand = 4,
    Malformed = 5,
    ParameterCount = 6,
    OutOfRange = 7,
    PasswordClosed = 8,
    WrongPassword = 9,
    NominalSet = 10,
    NoDeadLoad = 11,
    SpanNotPositive = 12,
    TooFewReadings = 13,
    PortRange = 14,
    FactorRange = 15,
    NinthGauge = 16,
}

impl Cause {
    // The number by which the bus and the fault memory name the cause.
    pub fn number(self) -> u8
        ensures value { result ≡ (described self).number }
        ensures law { Numbered }
    {
        self as u8
    }

    // The layer in which the cause arises.
    pub fn layer(self) -> Layer
        ensures { result ≡ (described self).layer }
    {
        match self {
            Cause::NoEnd | Cause::ShortBuffer | Cause::LongCommand => Layer::Line,
            Cause::UnknownCommand | Cause::Malformed | Cause::ParameterCount | Cause::OutOfRange =>
                Layer::Command,
            Cause::PasswordClosed
            | Cause::WrongPassword
            | Cause::NominalSet
            | Cause::NoDeadLoad
            | Cause::SpanNotPositive => Layer::Weighing,
            Cause::TooFewReadings | Cause::PortRange | Cause::FactorRange | Cause::NinthGauge =>
                Layer::Bank,
        }
    }

    // The refusal for this cause at a place.
    pub fn at(self, place: usize) -> Fault
        ensures { result ≡ refusal self place }
    {
        Fault { cause: self, place }
    }
}
