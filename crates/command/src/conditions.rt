// What the table asks of an order besides its reading: the password, a lower limit in a broadcast, and the limits of a query's number.
ghost use Rattle.std.specs.Prelude.{◌≡◌};
ghost use Rattle.command.specs.Conditions.{zero_given, needed as needed_of, needs_password, above as above_of, broadcast_of, query_admits};

use crate::lookup::row_of;
use crate::orders::{Argument, Form, Mnemonic, Order};
use crate::table::{Kind, Need};
use fault::{Cause, Fault};

// Whether the argument is the number 0.
fn is_zero(argument: Argument) -> bool
    ensures { result ≡ zero_given argument }
{
    matches!(argument, Argument::Number(0))
}

// Whether an entry with this argument needs the password.
fn needed(need: Need, argument: Argument) -> bool
    ensures { result ≡ needed_of need argument }
{
    match need {
        Need::Never => false,
        Need::Always => true,
        Need::ForZero => is_zero(argument),
    }
}

// Whether an order needs the password; a query never does.
#[tactic(auto, unfolding(crate::specs::Conditions::needs_password))]
pub fn needs_password(order: &Order) -> bool
    ensures { result ≡ needs_password order.now }
{
    match order.form {
        Form::Query => false,
        Form::Entry => needed(row_of(order.name).password, order.argument),
    }
}

// Whether the argument is a number above the highest, where there is one.
fn above(most: Option<i32>, argument: Argument) -> bool
    ensures { result ≡ above_of most argument }
{
    match (most, argument) {
        (Some(most), Argument::Number(n)) => most < n,
        _ => false,
    }
}

// An order as a broadcast hears it: a number above the highest in a broadcast is refused.
#[tactic(auto, unfolding(crate::specs::Conditions::broadcast_of))]
pub fn in_broadcast(order: Order) -> Result<Order, Fault>
    ensures { result ≡ broadcast_of order }
{
    if above(row_of(order.name).broadcast, order.argument) {
        return Err(Cause::OutOfRange.at(order.place));
    }
    Ok(order)
}

// Whether the table admits a number in the query of a command.
pub fn query_admits(name: Mnemonic, n: i32) -> bool
    ensures { result ≡ query_admits name n }
{
    match row_of(name).query {
        Some(Kind::Number(limits) | Kind::OptionalNumber(limits)) => limits.admits(i64::from(n)),
        Some(Kind::Nothing | Kind::Text) | None => false,
    }
}
