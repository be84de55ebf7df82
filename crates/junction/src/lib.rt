// Junction boxes: several ports of a bank joined into one, on any bank, boxes included.
#![tactic(auto)]

mod as_one;
mod feeds;
mod joins;
mod junction_box;
mod wiring;

pub use joins::Join;
pub use junction_box::JunctionBox;
pub use wiring::{WiredBox, wired};
