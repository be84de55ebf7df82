// Reads one command, all its bytes.
ghost use Rattle.std.specs.Prelude.{◌≡◌, ◌≤◌, ◌-◌, length};
ghost use Rattle.fault.specs.declared.causes.Cause.TheVariants.{UnknownCommand};
ghost use Rattle.fault.specs.Faults.{refusal as refusal_of};
ghost use Rattle.command.specs.Cuts.{first_of};
ghost use Rattle.command.specs.Readings.{sense_of, select_of, commanded, reading};
ghost use Rattle.command.specs.Understood.{past, form_at, rest_at, order_at, blamed, answered};
ghost use Rattle.command.specs.Spellings.{ReadsAlike};
ghost use Rattle.command.specs.Table.{WholeTable};

use crate::arguments::argument_in;
use crate::blanks::{chop, skip};
use crate::cut::position;
use crate::lookup::find;
use crate::orders::{Form, Heard, Mnemonic, Order};
use crate::table::Kind;
use fault::{Cause, Fault};

// A command has at most this many bytes.
const LONGEST: usize = 64;

// The bytes that hold and resume the flow of the line: no command has one.
pub(crate) const XON: u8 = 0x11;

pub(crate) const XOFF: u8 = 0x13;

// Whether a command asks, and its rest from the first byte of its parameter, by what stands behind its initials.
fn asked(behind: &[u8]) -> (Form, &[u8])
    ensures form { result.0 ≡ form_at (past behind.now) }
    ensures rest { result.1.now ≡ rest_at (past behind.now) }
    ensures within { length result.1.now ≤ length behind.now }
{
    match skip(behind) {
        [b'?', rest @ ..] => (Form::Query, skip(rest)),
        rest => (Form::Entry, rest),
    }
}

// The command with these initials and what its form takes; none where the initials are unknown or it has no such form.
#[tactic(auto, unfolding(crate::specs::Readings::sense_of))]
fn sense(initials: [u8; 3], form: Form) -> Option<(Mnemonic, Kind)>
    ensures { result ≡ sense_of initials form }
{
    let row = find(initials)?;
    let kind = row.kind(form)?;
    Some((row.name, kind))
}

// Why a command is refused: its first byte that holds or resumes the flow, if there is one, or else what was found.
#[cold]
fn refusal(command: &[u8], found: Fault) -> Fault
    ensures { result ≡ blamed (first_of 17 19 command.now) found }
{
    match position(command, XON, XOFF) {
        Some(place) => Cause::UnknownCommand.at(place),
        None => found,
    }
}

// The refusal of a command that is unknown, whose initials begin `start`.
fn unknown(command: &[u8], start: &[u8]) -> Fault
    requires { length start.now ≤ length command.now }
    ensures { result ≡ blamed (first_of 17 19 command.now) (refusal_of UnknownCommand (length command.now - length start.now)) }
{
    refusal(
        command,
        Cause::UnknownCommand.at(command.len() - start.len()),
    )
}

// Reads a command that is neither blank nor a select; `start` is the part behind its leading blanks.
#[tactic(auto, using(crate::proofs::Rows::short_sense), unfolding(crate::specs::Understood::order_at))]
fn order_in(command: &[u8], start: &[u8]) -> Result<Heard, Fault>
    requires { length start.now ≤ length command.now }
    ensures { result ≡ answered (first_of 17 19 command.now) (commanded (order_at (length command.now) start.now)) }
{
    let [x, y, z, behind @ ..] = start else {
        return Err(unknown(command, start));
    };
    let (form, rest) = asked(behind);
    let Some((name, kind)) = sense([*x, *y, *z], form) else {
        return Err(unknown(command, start));
    };
    let place = command.len() - rest.len();
    let argument = argument_in(kind, chop(rest)).map_err(|cause| refusal(
        command,
        cause.at(place),
    ))?;
    Ok(Heard::Command(Order {
        name,
        form,
        argument,
        place,
    }))
}

// The pair of digits of a select without the blanks around it: S or s and two digits.
fn select_in(bytes: &[u8]) -> Option<u8>
    ensures { result ≡ select_of bytes.now }
{
    match bytes {
        [b'S' | b's', tens @ b'0'..=b'9', ones @ b'0'..=b'9'] => {
            Some(10 * (*tens - b'0') + (*ones - b'0'))
        }
        _ => None,
    }
}

// Reads one command, all its bytes. A byte that holds or resumes the flow is neither a blank nor a part of anything that
// is understood, so only a refused command is searched for one.
#[tactic(auto, using(crate::proofs::Cases::reads_alike, crate::proofs::Rows::whole_table, crate::proofs::Flows::reading_is), unfolding(crate::specs::Understood::understood))]
pub fn read(command: &[u8]) -> Result<Heard, Fault>
    ensures value { result ≡ reading command.now }
    ensures alike { ReadsAlike }
    ensures table { WholeTable }
{
    if command.len() > LONGEST {
        return Err(Cause::LongCommand.at(LONGEST));
    }
    let start = skip(command);
    let bytes = chop(start);
    if bytes.is_empty() {
        return Ok(Heard::Blank);
    }
    if let Some(pair) = select_in(bytes) {
        return Ok(Heard::Select(pair));
    }
    order_in(command, start)
}
