// The recursion up the creation tree: "to its origin, whose number is smaller where it is a pass".
ghost use Rattle.std.specs.Prelude.{◌≡◌, ℕ, ◌<◌, eqb};
ghost use Rattle.model.specs.State.{capability_at, origin_at};
ghost use Rattle.tree.specs.Tree.{lineage_has, lineage_end};

use model::{Capability, Origin};

// The user created capability n or one on its lineage.
#[tactic(auto, using(crate::proofs::Ascent::has_here, crate::proofs::Ascent::has_up, crate::proofs::Ascent::has_last, crate::proofs::Ascent::has_ended))]
pub fn created(capabilities: &[Capability; 256], n: u8, user: u32) -> bool
    ensures { (f : ℕ) → n < f → result ≡ lineage_has (origin_at capabilities.now) (λ k. eqb (capability_at capabilities.now k).creator user) f n }
{
    let c = capabilities[usize::from(n)];
    if u32::from(c.creator) == user {
        return true;
    }
    match c.origin {
        Origin::Capability(k) if k < n => created(capabilities, k, user),
        Origin::Capability(_) | Origin::Role(_) => false,
    }
}

// The role where the lineage of capability n ends.
#[tactic(auto, using(crate::proofs::Ascent::end_up, crate::proofs::Ascent::end_last, crate::proofs::Ascent::end_ended))]
pub fn root_of(capabilities: &[Capability; 256], n: u8) -> u8
    ensures upper_bound { result < 32 }
    ensures by_index { (f : ℕ) → n < f → result ≡ lineage_end (origin_at capabilities.now) f n }
{
    let c = capabilities[usize::from(n)];
    match c.origin {
        Origin::Capability(k) if k < n => root_of(capabilities, k),
        Origin::Capability(k) | Origin::Role(k) => k % 32,
    }
}
