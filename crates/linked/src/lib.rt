// The terminal behind functions that Rust and C can link: each makes a hall, and serves one byte run in it.
#![tactic(auto)]

mod serving;
mod setting_up;

pub use serving::{served, weighing_serve_dials, weighing_serve_recording};
