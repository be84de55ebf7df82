// Values as they are shown: one exact rounding, and the formats they are written in.
#![tactic(auto)]

pub mod binary;
pub mod block;
pub mod decimal;
pub mod examples;
pub mod format;
pub mod layout;
pub mod limits;
pub mod output;
pub mod placing;
pub mod plain;
pub mod rounding;
pub mod scaling;
mod signed;
pub mod status;
mod unknown;
