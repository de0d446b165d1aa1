// Numbers, maps and the fields of a record as bytes, written and read.
#![tactic(auto)]

pub mod coding;
pub mod field;
pub mod layout;
pub mod number;
