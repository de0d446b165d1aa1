// The calls over the whole creation tree: each is refused, or comes to a value or a sweep; revoke and same go up the tree by recursion.
// That the register keeps the rules is a clause of each and no type: a journal lends the one that it changes, and would copy it to wrap it.
#![tactic(auto)]

pub mod amending;
pub mod comparing;
mod lineage;
pub mod orders;
pub mod revoking;
pub mod withdrawing;
