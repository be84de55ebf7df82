// The terminal.
use crate::listening::Listening;
use scale::Scale;

// How many scales there are.
pub(crate) const SCALES: usize = 32;

// A bank of gauges, the 32 scales, each over the port of its own address, and who listens.
// Contracts speak of it as `bus B.shows`, and not by an `impl Model`, since the ports of a bus are a function, which no such value can hold.
#[derive(Drop)]
pub struct Terminal<B> {
    pub(crate) bank: B,
    pub(crate) scales: [Scale; SCALES],
    pub(crate) listening: Listening,
}
