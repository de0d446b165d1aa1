// What stands at an origin, a role or a capability alike, and what it allows: for the rules, the calls and the sweeps.
#![tactic(auto)]

pub mod authority;
pub mod numbers;
pub mod standing;
pub mod terms;
