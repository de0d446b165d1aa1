// withdraw, on a register that is known to be well-formed.
ghost use Rattle.std.specs.Prelude.{◌≡◌, T};
ghost use Rattle.model.specs.Rules.{well_formed};
ghost use Rattle.model.specs.Calls.{settled, withdraw};
ghost use Rattle.slots.specs.Guards.{guarded, first_number};
ghost use Rattle.model.specs.Administration.{withdrawing};
ghost use Rattle.tree.specs.Orders.{order_effect};

use crate::orders::Order;
use masks::{excluding, member};
use model::{Refusal, Register, Role};
use slots::guards::ensure;
use sweeps::Sweep;

#[tactic(auto, unfolding(slots::specs::Guards::first_number))]
fn withdraw_guards(x: Role, role: u32, permission: u32) -> Result<(), Refusal>
    ensures { guarded result ≡ first_number (withdrawing x role permission).guards }
{
    ensure(role < 32 && permission < 32, Refusal::Range)?;
    ensure(x.founded, Refusal::Missing)?;
    ensure(
        member(u64::from(x.permissions), permission),
        Refusal::Unchanged,
    )
}

#[tactic(auto, using(crate::proofs::WithdrawLaws::withdraw_refused, crate::proofs::WithdrawLaws::withdraw_passed))]
pub fn withdraw_order(r: &Register, role: u32, permission: u32) -> Result<Order, Refusal>
    requires { T (well_formed r.now) }
    ensures { order_effect r.now result ≡ settled r.now (withdraw role permission) }
{
    let x = r.roles[(role % 32) as usize];
    withdraw_guards(x, role, permission)?;
    let left = excluding(x.permissions, permission % 32);
    Ok(Order::Sweep(Sweep::Cut((role % 32) as u8, left)))
}
