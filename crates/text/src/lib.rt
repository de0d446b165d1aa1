// Lines of the journal: their parts, the numbers and the other arguments in them.
#![tactic(auto)]

pub mod arguments;
pub mod numbers;
pub mod parts;
pub mod short;
