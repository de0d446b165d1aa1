// Tables and masks that the sweep makes once.
ghost use Rattle.std.specs.Prelude.{◌≡◌, cond, ℕ, ◌^◌, ◌<◌, ◌≤◌, get_or};
ghost use Rattle.origins.specs.Numbers.{capability_held};
ghost use Rattle.rules.specs.Columns.{masked, is_founded, in_domain, bumped};

use model::{Origin, Role};

// The mask of item k alone, or of none.
#[tactic(auto, using(masks::proofs::Truth::cond_true, masks::proofs::MaskLaws::one_shl))]
fn single(on: bool, k: usize) -> u64
    requires { k < 64 }
    ensures { result ≡ cond on (2 ^ k) 0 }
{
    if on { 1 << k } else { 0 }
}

// The roles that are founded.
#[tactic(auto, using(crate::proofs::Laws::masked_more), unfolding(crate::specs::Columns::masked))]
pub fn founded_roles(roles: &[Role; 32]) -> u64
    ensures { result ≡ masked (is_founded roles.now) 32 }
{
    let mut mask = 0;
    for (k, role) in roles.iter().enumerate() {
        mask |= single(role.founded, k);
    }
    mask
}

// The users of each domain.
#[tactic(auto, using(crate::proofs::Laws::groups_more), unfolding(crate::specs::Columns::masked))]
pub fn domain_users(domains: &[u8; 64]) -> [u64; 8]
    ensures { (d : ℕ) → d < 8 → get_or result d 0 ≡ masked (in_domain domains.now d) 64 }
{
    let mut table = [0; 8];
    for (u, domain) in domains.iter().enumerate() {
        table[(*domain % 8) as usize] |= single(*domain < 8, u);
    }
    table
}

// One capability more, with the origin o.
pub fn bump(table: &mut [u16; 256], o: Origin)
    requires { get_or table.old (capability_held o) 0 < 256 }
    ensures { table.new ≡ bumped table.old o }
{
    if let Origin::Capability(k) = o {
        table[usize::from(k)] += 1;
    }
}

// The count of capabilities, at most the number of places.
pub fn places(count: u16) -> usize
    ensures { (result ≤ 256) × (count ≤ 256 → result ≡ count) }
{
    usize::from(count.min(256))
}
