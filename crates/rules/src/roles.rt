// The rules of users and roles.
ghost use Rattle.std.specs.Prelude.{◌≡◌, get_or};
ghost use Rattle.masks.specs.Tests.{all_below};
ghost use Rattle.model.specs.State.{role_at};
ghost use Rattle.model.specs.Rules.{user_keeps, role_keeps};

use crate::columns::domain_users;
use entries::roles::{role_keeps, user_keeps};
use model::Role;

#[tactic(auto, using(crate::proofs::Laws::all_more, crate::proofs::Laws::all_done), unfolding(masks::specs::Tests::all_below))]
pub fn users_keep(enrolled: u64, domains: &[u8; 64]) -> bool
    ensures { result ≡ all_below 64 (λ u. user_keeps enrolled u (get_or domains.now u 0)) }
{
    let mut ok = true;
    for (u, domain) in domains.iter().enumerate() {
        ok &= user_keeps(enrolled, u, *domain);
    }
    ok
}

#[tactic(auto, using(crate::proofs::Laws::all_more, crate::proofs::Laws::all_done, crate::proofs::Agreement::role_agrees), unfolding(masks::specs::Tests::all_below))]
pub fn roles_keep(enrolled: u64, domains: &[u8; 64], roles: &[Role; 32]) -> bool
    ensures { result ≡ all_below 32 (λ k. role_keeps enrolled domains.now k (role_at roles.now k)) }
{
    let users = domain_users(domains);
    let mut ok = true;
    for x in roles {
        ok &= role_keeps(enrolled, users[(x.domain % 8) as usize], *x);
    }
    ok
}
