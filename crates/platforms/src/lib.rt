// The platform: its hall, how much of its input it reads, and what it answers.
#![tactic(auto)]

mod hall;
mod reading;
mod serving;

pub use hall::platform;
pub use reading::first_bytes;
pub use serving::{answers, serve};
