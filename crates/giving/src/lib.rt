// Giving: allow, lend and hand, decided over the elements that they name.
#![tactic(auto)]

ghost use Rattle.std.specs.Prelude.{◌≡◌};
ghost use Rattle.model.specs.Setters.{with_permissions, with_lent};
ghost use Rattle.model.specs.Delegation.{give_guards, handing};
ghost use Rattle.slots.specs.Guards.{guarded, first_number};
ghost use Rattle.slots.specs.Slots.{ruled_of};
ghost use Rattle.giving.specs.Giving.{hand_decision, give_decision, allow_decision, lend_decision};

use masks::{contained, including, member};
use model::{Capability, Refusal};
use origins::authority::{RoleColumns, authority_in};
use slots::guards::{ensure, raised};
use slots::terms::origin_allows;
use slots::{Decision, Slots, settle};

#[tactic(auto, unfolding(slots::specs::Guards::first_number))]
fn hand_guards(
    enrolled: u64,
    count: u16,
    c: Capability,
    user: u32,
    receiver: u32,
    number: u32,
) -> Result<(), Refusal>
    ensures { guarded result ≡ first_number (handing enrolled count c user receiver number).guards }
{
    ensure(user < 64 && receiver < 64 && number < 256, Refusal::Range)?;
    ensure(
        member(enrolled, user) && member(enrolled, receiver) && number < count as u32,
        Refusal::Missing,
    )?;
    ensure(c.creator as u32 == user, Refusal::Forbidden)?;
    ensure(!c.revoked, Refusal::Revoked)?;
    ensure(!member(c.holders, receiver), Refusal::Unchanged)?;
    ensure(c.hops < c.hop_limit, Refusal::Exhausted)
}

// A mask that a user gives to a capability: `given` is what its origin may give, `had` what it has already, `after` the capability
// with the mask added.
#[derive(Clone, Copy)]
struct Gift {
    user: u32,
    number: u32,
    mask: u32,
    given: u32,
    had: u32,
    after: Capability,
}

// The tests of allow and lend.
#[tactic(auto, unfolding(slots::specs::Guards::first_number))]
fn give_guards(v: Slots, g: Gift) -> Result<(), Refusal>
    ensures { guarded result ≡ first_number (give_guards v.enrolled v.count v.capability g.given g.had g.user g.number g.mask) }
{
    ensure(g.user < 64 && g.number < 256, Refusal::Range)?;
    ensure(
        member(v.enrolled, g.user) && g.number < v.count as u32,
        Refusal::Missing,
    )?;
    ensure(v.capability.creator as u32 == g.user, Refusal::Forbidden)?;
    ensure(!v.capability.revoked, Refusal::Revoked)?;
    ensure(contained(g.mask, g.given), Refusal::Exceeds)?;
    ensure(!contained(g.mask, g.had), Refusal::Unchanged)
}

// Allow and lend, once it is known what they give.
fn give(v: Slots, columns: &RoleColumns, g: Gift) -> Decision
    ensures { ruled_of result ≡ give_decision v columns.now g.given g.had g.user g.number g.mask g.after }
{
    let authority = authority_in(columns, g.after);
    let after = Slots {
        capability: g.after,
        ..v
    };
    settle(v, give_guards(v, g), authority, after)
}

// The slot `capability` is the capability handed on.
#[tactic(auto, using(model::proofs::Settling::passed, origins::proofs::Laws::in_range_lem, slots::proofs::GuardLaws::raised_below), unfolding(crate::specs::Giving::hand_decision))]
pub fn decide_hand(v: Slots, user: u32, receiver: u32, number: u32) -> Decision
    ensures { ruled_of result ≡ hand_decision v user receiver number }
{
    let c = v.capability;
    let guards = hand_guards(v.enrolled, v.count, c, user, receiver, number);
    let hops = raised(c.hops, c.hop_limit);
    let handed = Capability {
        holders: including(c.holders, receiver % 64),
        hops,
        ..c
    };
    let after = Slots {
        capability: handed,
        ..v
    };
    settle(v, guards, hops as u32, after)
}

// The slot `capability` is the capability named; the slot `role` or `parent` is its origin. allow and lend have `give` in common; what is
// left to each is which mask is given, and which field holds it.
#[tactic(auto, using(crate::proofs::Laws::give_agrees), unfolding(crate::specs::Giving::allow_decision))]
pub fn decide_allow(v: Slots, columns: &RoleColumns, user: u32, number: u32, mask: u32) -> Decision
    ensures { ruled_of result ≡ allow_decision v columns.now user number mask }
{
    let c = v.capability;
    let gift = Gift {
        user,
        number,
        mask,
        given: origin_allows(v, columns, c.origin).grants,
        had: c.permissions,
        after: Capability {
            permissions: c.permissions | mask,
            ..c
        },
    };
    give(v, columns, gift)
}

// The same slots, for the roles that the origin may lend.
#[tactic(auto, using(crate::proofs::Laws::give_agrees), unfolding(crate::specs::Giving::lend_decision))]
pub fn decide_lend(v: Slots, columns: &RoleColumns, user: u32, number: u32, mask: u32) -> Decision
    ensures { ruled_of result ≡ lend_decision v columns.now user number mask }
{
    let c = v.capability;
    let gift = Gift {
        user,
        number,
        mask,
        given: origin_allows(v, columns, c.origin).lendable,
        had: c.lent,
        after: Capability {
            lent: c.lent | mask,
            ..c
        },
    };
    give(v, columns, gift)
}
