// Reads a parameter by the kind that the table gives.
ghost use Rattle.std.specs.Prelude.{◌≡◌};
ghost use Rattle.command.specs.Arguments.{ranged_of, worded, missing as missing_of, given as given_of, argument_of};
ghost use Rattle.command.specs.Numbers.{number_of};
ghost use Rattle.command.specs.Texts.{text_of};

use crate::decimal::number;
use crate::orders::Argument;
use crate::table::{Kind, Limits};
use crate::texts::quoted_text;
use fault::Cause;

// A parameter that is to be a whole number within the limits.
fn numeric(limits: Limits, parameter: &[u8]) -> Result<Argument, Cause>
    ensures { result ≡ ranged_of limits (number_of parameter.now) }
{
    let n = number(parameter).ok_or(Cause::Malformed)?;
    if !limits.admits(n) {
        return Err(Cause::OutOfRange);
    }
    Ok(Argument::Number(n as i32))
}

// A parameter that is to be a text in double quotes.
fn textual(parameter: &[u8]) -> Result<Argument, Cause>
    ensures { result ≡ worded (text_of parameter.now) }
{
    let text = quoted_text(parameter).ok_or(Cause::Malformed)?;
    Ok(Argument::Text(text))
}

// What a kind makes of no parameter.
fn missing(kind: Kind) -> Result<Argument, Cause>
    ensures { result ≡ missing_of kind }
{
    match kind {
        Kind::Nothing | Kind::OptionalNumber(_) => Ok(Argument::Absent),
        Kind::Number(_) | Kind::Text => Err(Cause::ParameterCount),
    }
}

// What a kind makes of a parameter.
fn given(kind: Kind, parameter: &[u8]) -> Result<Argument, Cause>
    ensures { result ≡ given_of kind parameter.now }
{
    match kind {
        Kind::Nothing => Err(Cause::ParameterCount),
        Kind::Number(limits) | Kind::OptionalNumber(limits) => numeric(limits, parameter),
        Kind::Text => textual(parameter),
    }
}

// The argument of a command whose parameter, from its first to its last byte, is `parameter`, or why it is refused.
#[tactic(auto, unfolding(crate::specs::Arguments::argument_of))]
pub(crate) fn argument_in(kind: Kind, parameter: &[u8]) -> Result<Argument, Cause>
    ensures { result ≡ argument_of kind parameter.now }
{
    if parameter.is_empty() {
        missing(kind)
    } else {
        given(kind, parameter)
    }
}
