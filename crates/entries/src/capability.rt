// The rules of one capability.
ghost use Rattle.std.specs.Prelude.{◌≡◌};
ghost use Rattle.masks.specs.Tests.{each};
ghost use Rattle.model.specs.Rules.{capability_blank, in_range, own_keeps};
ghost use Rattle.origins.specs.Terms.{terms_in};
ghost use Rattle.entries.specs.Limits.{capability_with, place_with};

use crate::limits::{is_earlier, is_origin};
use masks::member;
use model::{Capability, blank_capability};
use origins::terms::{Allowance, is_below};

// What the rules of every capability go by: the users enrolled, the roles founded, and how many capabilities there are.
#[derive(Clone, Copy)]
pub struct Known {
    pub enrolled: u64,
    pub founded: u64,
    pub count: u16,
}

// What is kept for a capability not there is 0.
#[tactic(auto, using(masks::proofs::Truth::left_each), unfolding(model::specs::Rules::capability_blank))]
fn is_blank(c: Capability) -> bool
    ensures { result ≡ capability_blank c }
{
    c == blank_capability()
}

// Every number is in its range; the types see to those that are not tested.
#[tactic(auto, using(masks::proofs::Truth::left_each), unfolding(model::specs::Rules::in_range))]
fn is_ranged(c: Capability) -> bool
    ensures { result ≡ in_range c }
{
    is_origin(c.origin) && c.creator < 64 && c.hours < 16777216
}

// What a capability keeps by itself.
#[tactic(auto, using(masks::proofs::Truth::left_each), unfolding(model::specs::Rules::own_keeps, masks::specs::Masks::within))]
fn keeps_own(enrolled: u64, c: Capability) -> bool
    ensures { result ≡ own_keeps enrolled c }
{
    member(enrolled, u32::from(c.creator))
        && c.holders & enrolled == c.holders
        && c.first <= c.last
        && u32::from(c.hops) == c.holders.count_ones()
        && c.hops <= c.hop_limit
}

// The rules of capability n, which is c.
#[tactic(auto, using(masks::proofs::Truth::left_each), unfolding(masks::specs::Masks::within))]
fn keeps_all(k: Known, n: usize, there: bool, u: Allowance, made: u16, c: Capability) -> bool
    ensures { result ≡ each (capability_with k.enrolled k.founded n there (terms_in u) made c) }
{
    let lent = u64::from(c.lent);
    is_ranged(c)
        && lent & k.founded == lent
        && there
        && is_earlier(n, c.origin)
        && is_below(c, u)
        && c.creations == made
        && c.creations <= c.creation_limit
        && keeps_own(k.enrolled, c)
}

// The rules of place n.
#[tactic(auto, using(masks::proofs::Truth::cond_true, masks::proofs::Truth::cond_false), unfolding(crate::specs::Limits::place_with))]
pub fn keeps_place(k: Known, n: usize, there: bool, u: Allowance, made: u16, c: Capability) -> bool
    ensures { result ≡ place_with k.enrolled k.founded k.count n there (terms_in u) made c }
{
    if n < usize::from(k.count) {
        keeps_all(k, n, there, u, made, c)
    } else {
        is_blank(c)
    }
}
