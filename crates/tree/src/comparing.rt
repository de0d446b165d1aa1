// same, on a register that is known to be well-formed.
ghost use Rattle.std.specs.Prelude.{◌≡◌, ◌<◌, T};
ghost use Rattle.model.specs.Rules.{well_formed};
ghost use Rattle.model.specs.Calls.{settled, same};
ghost use Rattle.model.specs.Comparison.{same_guards, compared};
ghost use Rattle.origins.specs.Authority.{Columns};
ghost use Rattle.slots.specs.Guards.{guarded, first_number};
ghost use Rattle.tree.specs.Orders.{order_effect, numbers_of};

use crate::lineage::root_of;
use crate::orders::Order;
use model::{Refusal, Register};
use origins::authority::{RoleColumns, authority_in, columns_of};
use slots::guards::ensure;

// All that is compared of a capability, as it stands now.
#[derive(Clone, Copy, PartialEq, Eq)]
pub struct Compared {
    pub domain: u8,
    pub authority: u32,
    pub first: u32,
    pub last: u32,
    pub use_limit: u16,
    pub creation_limit: u16,
    pub hop_limit: u16,
    pub hours: u32,
    pub places: u16,
    pub devices: u16,
}

#[tactic(auto, using(crate::proofs::SameLaws::compared_is))]
fn compared_of(r: &Register, columns: &RoleColumns, n: u8) -> Compared
    requires formed { T (well_formed r.now) }
    requires kept { Columns columns.now r.now.roles }
    requires created { n < r.now.count }
    ensures { numbers_of result ≡ compared r.now n }
{
    let c = r.capabilities[usize::from(n)];
    let root = root_of(&r.capabilities, n);
    Compared {
        domain: r.roles[usize::from(root)].domain,
        authority: authority_in(columns, c),
        first: c.first,
        last: c.last,
        use_limit: c.use_limit,
        creation_limit: c.creation_limit,
        hop_limit: c.hop_limit,
        hours: c.hours,
        places: c.places,
        devices: c.devices,
    }
}

#[tactic(auto, unfolding(slots::specs::Guards::first_number))]
fn same_guards(count: u16, m: u32, n: u32) -> Result<(), Refusal>
    ensures { guarded result ≡ first_number (same_guards count m n) }
{
    ensure(m < 256 && n < 256, Refusal::Range)?;
    ensure(
        m < u32::from(count) && n < u32::from(count),
        Refusal::Missing,
    )
}

// The register stays as it is.
#[tactic(auto, using(crate::proofs::SameLaws::same_refused, crate::proofs::SameLaws::first_created, crate::proofs::SameLaws::second_created))]
pub fn same_order(r: &Register, m: u32, n: u32) -> Result<Order, Refusal>
    requires { T (well_formed r.now) }
    ensures { order_effect r.now result ≡ settled r.now (same m n) }
{
    same_guards(r.count, m, n)?;
    let columns = columns_of(&r.roles);
    let x = compared_of(r, &columns, (m % 256) as u8);
    let y = compared_of(r, &columns, (n % 256) as u8);
    Ok(Order::Value(u32::from(x == y)))
}
