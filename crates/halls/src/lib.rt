// A hall described by a script: its bank, its boxes, and a terminal over them. The programs that play scripts share it.
#![tactic(auto)]

mod answering;
mod answers;
mod beneath;
mod escapes;
mod parsing;
mod printing;
mod requests;
mod running;
mod script;
mod spelling;
mod stages;
mod tail;
mod words;

pub use answers::Answer;
pub use printing::Reply;
pub use requests::Reason;
pub use running::{play, replies};
pub use script::Script;
