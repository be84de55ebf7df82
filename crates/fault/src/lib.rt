// Why a call refuses: its cause, with a number and a layer, its place, and the text in which a scale remembers it.
#![tactic(auto)]

mod causes;
mod faults;
mod memory;

pub use causes::{Cause, Layer};
pub use faults::Fault;
pub use memory::memory_text;
