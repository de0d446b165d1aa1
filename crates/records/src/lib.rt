// The records of roles, capabilities and sessions as bytes, written and read.
#![tactic(auto)]

pub mod reader;
pub mod record;
