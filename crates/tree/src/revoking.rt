// revoke, on a register that is known to be well-formed.
ghost use Rattle.std.specs.Prelude.{◌≡◌, T};
ghost use Rattle.model.specs.Rules.{well_formed};
ghost use Rattle.model.specs.Calls.{settled, revoke};
ghost use Rattle.slots.specs.Guards.{guarded, first_number};
ghost use Rattle.model.specs.Revocation.{revoke_guards};
ghost use Rattle.tree.specs.Orders.{order_effect};

use crate::lineage::created;
use crate::orders::Order;
use masks::member;
use model::{Refusal, Register};
use slots::guards::ensure;
use sweeps::Sweep;

// `entitled` says whether the user created the capability or one on its lineage, `revoked` whether it is revoked already.
#[tactic(auto, unfolding(slots::specs::Guards::first_number))]
fn revoke_guards(
    enrolled: u64,
    count: u16,
    user: u32,
    n: u32,
    entitled: bool,
    revoked: bool,
) -> Result<(), Refusal>
    ensures { guarded result ≡ first_number (revoke_guards enrolled count user n entitled revoked) }
{
    ensure(user < 64 && n < 256, Refusal::Range)?;
    ensure(
        member(enrolled, user) && n < u32::from(count),
        Refusal::Missing,
    )?;
    ensure(entitled, Refusal::Forbidden)?;
    ensure(!revoked, Refusal::Revoked)
}

#[tactic(auto, using(crate::proofs::RevokeLaws::revoke_refused, crate::proofs::RevokeLaws::revoke_passed))]
pub fn revoke_order(r: &Register, user: u32, n: u32) -> Result<Order, Refusal>
    requires { T (well_formed r.now) }
    ensures { order_effect r.now result ≡ settled r.now (revoke user n) }
{
    let at = (n % 256) as u8;
    let entitled = created(&r.capabilities, at, user);
    let revoked = r.capabilities[usize::from(at)].revoked;
    revoke_guards(r.enrolled, r.count, user, n, entitled, revoked)?;
    Ok(Order::Sweep(Sweep::Mark(at)))
}
