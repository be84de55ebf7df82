// Banks of load gauges: what a bank means, two that hold gauges of their own, and one that keeps the counts of any other.
#![tactic(auto)]

mod address;
mod addresses;
mod counted;
mod dial;
mod dials;
mod factor;
mod fitting;
mod gauge_bank;
mod gauges;
mod reading;
mod record;
mod recording;
mod scan;

pub use address::Address;
pub use addresses::Addresses;
pub use counted::CountedBank;
pub use dials::{DialTable, Dials};
pub use gauge_bank::{GaugeBank, checked_port};
pub use gauges::{Gauges, Source};
pub use reading::{Mark, Reading};
pub use record::Record;
pub use recording::{Recording, Records};
pub use scan::MOST_RECORDS;
