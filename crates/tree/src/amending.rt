// amend, on a register that is known to be well-formed.
ghost use Rattle.std.specs.Prelude.{◌≡◌, T};
ghost use Rattle.model.specs.Rules.{well_formed};
ghost use Rattle.model.specs.Calls.{settled, amend};
ghost use Rattle.model.specs.Requests.{change_of};
ghost use Rattle.slots.specs.Guards.{guarded, first_number};
ghost use Rattle.tree.specs.Guards.{amendment_guards};
ghost use Rattle.tree.specs.Orders.{amendment_of, order_effect};

use crate::orders::Order;
use masks::member;
use model::{Capability, Change, Refusal, Register};
use origins::numbers::capability_held;
use origins::terms::bare_allowance;
use slots::guards::ensure;
use sweeps::Sweep;

// What a change asks for: it is in its range, is 0, would fall below 0; and the limit after it. Flags and no refusal: each is one test
// of `amend_guards`, with tests of other things between them.
#[derive(Clone, Copy)]
pub struct Amendment {
    pub ranged: bool,
    pub zero: bool,
    pub below: bool,
    pub limit: u32,
}

fn amendment_of(change: Change, limit: u16) -> Amendment
    ensures { result ≡ amendment_of (change_of change) limit }
{
    let limit = u32::from(limit);
    match change {
        Change::Raise(d) => Amendment {
            ranged: d < 65536,
            zero: d == 0,
            below: false,
            limit: limit + d % 65536,
        },
        Change::Lower(d) => Amendment {
            ranged: d < 65536,
            zero: d == 0,
            below: limit < d,
            limit: limit.saturating_sub(d),
        },
    }
}

#[tactic(auto, unfolding(slots::specs::Guards::first_number))]
fn amend_guards(
    enrolled: u64,
    count: u16,
    user: u32,
    n: u32,
    c: Capability,
    a: Amendment,
    bound: u16,
) -> Result<(), Refusal>
    ensures { guarded result ≡ first_number (amendment_guards enrolled count user n c a bound) }
{
    ensure(user < 64 && n < 256 && a.ranged, Refusal::Range)?;
    ensure(
        member(enrolled, user) && n < u32::from(count),
        Refusal::Missing,
    )?;
    ensure(u32::from(c.creator) == user, Refusal::Forbidden)?;
    ensure(!c.revoked, Refusal::Revoked)?;
    ensure(!a.zero, Refusal::Unchanged)?;
    ensure(!a.below, Refusal::Exhausted)?;
    ensure(a.limit <= u32::from(bound), Refusal::Exceeds)
}

#[tactic(auto, using(crate::proofs::AmendLaws::amend_refused, crate::proofs::AmendLaws::amend_passed))]
pub fn amend_order(r: &Register, user: u32, n: u32, change: Change) -> Result<Order, Refusal>
    requires { T (well_formed r.now) }
    ensures { order_effect r.now result ≡ settled r.now (amend user n (change_of change)) }
{
    let at = (n % 256) as u8;
    let c = r.capabilities[usize::from(at)];
    let parent = r.capabilities[usize::from(capability_held(c.origin))];
    let bound = bare_allowance(c.origin, parent).use_limit;
    let a = amendment_of(change, c.use_limit);
    amend_guards(r.enrolled, r.count, user, n, c, a, bound)?;
    Ok(Order::Sweep(Sweep::Limit(at, (a.limit % 65536) as u16)))
}
