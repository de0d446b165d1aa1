// The rules of one user, role, capability or session, by itself and against what its origin allows.
#![tactic(auto)]

pub mod capability;
mod limits;
pub mod roles;
pub mod session;
