// The bus: a terminal of 32 scales over one bank of gauges, who listens, obeying, serving, and whole runs.
#![tactic(auto)]

mod answers;
mod calls;
mod listening;
mod obeying;
mod running;
mod serving;
mod terminal;

pub use answers::{Obeyed, ROOM, Served, Stop};
pub use calls::{Call, Exchange, Outcome};
pub use running::run;
pub use terminal::Terminal;
