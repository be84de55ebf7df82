// Reads the commands of a scale terminal: splitting, blanks, selects, initials, parameters, numbers and texts.
#![tactic(auto)]

mod arguments;
mod blanks;
mod conditions;
mod cut;
mod decimal;
mod examples;
mod lookup;
mod orders;
mod reader;
mod table;
mod texts;

pub use conditions::{in_broadcast, needs_password, query_admits};
pub use cut::split;
pub use decimal::number;
pub use examples::examples_hold;
pub use orders::{Argument, Form, Heard, Mnemonic, Order};
pub use reader::read;
pub use table::MOST_VALUES;
pub use texts::{Text, quoted_text};
