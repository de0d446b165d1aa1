// The rules of one user and of one role.
ghost use Rattle.std.specs.Prelude.{◌≡◌, ◌<◌};
ghost use Rattle.masks.specs.Tests.{each};
ghost use Rattle.model.specs.Rules.{user_keeps, role_blank};
ghost use Rattle.entries.specs.Limits.{role_with, role_keeps_with};

use masks::member;
use model::{Role, blank_role};

// A user is of a domain once enrolled, and of domain 0 before.
#[tactic(auto, using(masks::proofs::Truth::cond_true, masks::proofs::Truth::cond_false), unfolding(model::specs::Rules::user_keeps, masks::specs::Masks::has))]
pub fn user_keeps(enrolled: u64, u: usize, domain: u8) -> bool
    requires { u < 64 }
    ensures { result ≡ user_keeps enrolled u domain }
{
    if member(enrolled, u as u32) {
        domain < 8
    } else {
        domain == 0
    }
}

// What is kept for a role not founded is 0.
#[tactic(auto, using(masks::proofs::Truth::left_each), unfolding(model::specs::Rules::role_blank))]
fn is_blank(x: Role) -> bool
    ensures { result ≡ role_blank x }
{
    x == Role {
        founded: x.founded,
        ..blank_role()
    }
}

// The rules of a founded role; peers are the users of its domain.
#[tactic(auto, using(masks::proofs::Truth::left_each), unfolding(masks::specs::Masks::within))]
fn keeps_all(enrolled: u64, peers: u64, x: Role) -> bool
    ensures { result ≡ each (role_with enrolled peers x) }
{
    x.domain < 8
        && x.hours < 16777216
        && x.appointed & enrolled == x.appointed
        && x.appointed & peers == x.appointed
}

#[tactic(auto, using(masks::proofs::Truth::cond_true, masks::proofs::Truth::cond_false))]
pub fn role_keeps(enrolled: u64, peers: u64, x: Role) -> bool
    ensures { result ≡ role_keeps_with enrolled peers x }
{
    if x.founded {
        keeps_all(enrolled, peers, x)
    } else {
        is_blank(x)
    }
}
