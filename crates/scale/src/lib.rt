// One scale: its settings, measuring, and what it does with a command.
#![tactic(auto)]

mod answers;
mod averaging;
mod blocks;
mod calibrating;
mod display;
mod entering;
mod entries;
mod hearing;
mod measuring;
mod modes;
mod obeying;
mod orders;
mod queries;
mod scale;
mod settings;
mod state;
mod step;
mod weighing;

pub use averaging::Averaging;
pub use bank::Address;
pub use display::Display;
pub use hearing::{Hearing, ROOM, SILENCE};
pub use modes::Mode;
pub use scale::Scale;
pub use settings::Settings;
pub use state::{State, Ticket};
pub use step::Step;
