// What origins grant and may lend, by the columns of the roles, which are made in one place.
ghost use Rattle.std.specs.Prelude.{◌≡◌};
ghost use Rattle.origins.specs.Authority.{Columns, role_item, authority_in, granted_by, lendable_by};

use masks::{Mask, join};
use model::{Capability, Origin, Role};

// What each role grants and what it may lend, to be lent where the register would be copied.
#[derive(Clone, Copy)]
pub struct RoleColumns {
    pub grants: [u32; 32],
    pub lends: [u32; 32],
}

#[tactic(auto, unfolding(model::specs::State::role_authority, model::specs::State::role_lends))]
pub fn columns_of(roles: &[Role; 32]) -> RoleColumns
    ensures { Columns result roles.now }
{
    let mut columns = RoleColumns {
        grants: [0; 32],
        lends: [0; 32],
    };
    for (k, role) in roles.iter().enumerate() {
        columns.grants[k] = role.permissions;
        columns.lends[k] = u32::bit(k as u32);
    }
    columns
}

// The item of role k; there is none past 31.
#[tactic(auto, unfolding(crate::specs::Authority::role_item))]
fn role_item(column: &[u32; 32], k: u8) -> u32
    ensures { result ≡ role_item column.now k }
{
    if k < 32 { column[k as usize] } else { 0 }
}

// The authority of a capability: its own permissions and those of its lent roles; without lent roles no column is read.
#[tactic(auto, using(crate::proofs::Laws::authority_own), unfolding(crate::specs::Authority::authority_in, crate::specs::Authority::joined_items))]
pub fn authority_in(columns: &RoleColumns, c: Capability) -> u32
    ensures { result ≡ authority_in columns.now c }
{
    if c.lent == 0 {
        c.permissions
    } else {
        c.permissions | join(&columns.grants, c.lent)
    }
}

// The authority of the origin o, which is the capability c where it is one.
pub fn granted_by(columns: &RoleColumns, o: Origin, c: Capability) -> u32
    ensures { result ≡ granted_by columns.now o c }
{
    match o {
        Origin::Role(k) => role_item(&columns.grants, k),
        Origin::Capability(_) => authority_in(columns, c),
    }
}

// The roles that the origin o may lend.
#[tactic(auto, unfolding(crate::specs::Authority::joined_items))]
pub fn lendable_by(columns: &RoleColumns, o: Origin, c: Capability) -> u32
    ensures { result ≡ lendable_by columns.now o c }
{
    match o {
        Origin::Role(k) => role_item(&columns.lends, k),
        Origin::Capability(_) => join(&columns.lends, c.lent),
    }
}
