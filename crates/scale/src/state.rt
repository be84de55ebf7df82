// All that one scale remembers.
use crate::settings::Settings;
use fault::Fault;
use value::block::Measured;
use value::output::OutputFormat;

// A measured value with the format and the nominal value by which it is written.
#[derive(Clone, Copy)]
pub struct Ticket {
    pub measured: Measured,
    pub format: OutputFormat,
    pub nominal: u32,
}

// The settings in force and stored, a dead load that waits for its full load, whether the password has opened the
// scale, the value that a broadcast left to be handed out, and the fault memory.
#[derive(Clone, Copy)]
pub struct State {
    pub force: Settings,
    pub stored: Settings,
    pub pending: Option<i64>,
    pub opened: bool,
    pub held: Option<Ticket>,
    pub memory: Option<Fault>,
}
