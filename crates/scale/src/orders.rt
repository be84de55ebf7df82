// What an order asks of a scale.
ghost use Rattle.std.specs.Prelude.{◌≡◌};
ghost use Rattle.scale.specs.Orders.{number_in, text_in, block_size, task_of, for_values};

use command::{Argument, Form, Mnemonic, Order, Text, query_admits};
use fault::{Cause, Fault};

// The number of an order. It and `text_of` are two functions, since they share no more than the refusal.
pub(crate) fn number_of(order: Order) -> Result<i32, Fault>
    ensures { result ≡ number_in order.argument order.place }
{
    match order.argument {
        Argument::Number(n) => Ok(n),
        Argument::Absent | Argument::Text(_) => Err(Cause::Malformed.at(order.place)),
    }
}

// The text of an order.
pub(crate) fn text_of(order: Order) -> Result<Text, Fault>
    ensures { result ≡ text_in order.argument order.place }
{
    match order.argument {
        Argument::Text(text) => Ok(text),
        Argument::Absent | Argument::Number(_) => Err(Cause::Malformed.at(order.place)),
    }
}

// How many values an order asks for: one where it does not say, and else what the table admits.
pub(crate) fn block_size_of(order: Order) -> Result<u8, Fault>
    ensures { result ≡ block_size order.argument order.place }
{
    match order.argument {
        Argument::Absent => Ok(1),
        Argument::Number(n) if query_admits(Mnemonic::Msv, n) => Ok(n as u8),
        Argument::Number(_) => Err(Cause::OutOfRange.at(order.place)),
        Argument::Text(_) => Err(Cause::Malformed.at(order.place)),
    }
}

// Whether an order asks for measured values.
pub(crate) fn asks_values(order: Order) -> bool
    ensures { result ≡ for_values (task_of order.form order.name) }
{
    matches!((order.form, order.name), (Form::Query, Mnemonic::Msv))
}
