// Creation: create, decided over the elements that it names.
#![tactic(auto)]

ghost use Rattle.std.specs.Prelude.{◌≡◌};
ghost use Rattle.masks.specs.Tests.{each};
ghost use Rattle.model.specs.Delegation.{create_ranges};
ghost use Rattle.model.specs.Requests.{named_origin};
ghost use Rattle.origins.specs.Terms.{terms_in};
ghost use Rattle.slots.specs.Guards.{guarded, first_number};
ghost use Rattle.slots.specs.Slots.{ruled_of};
ghost use Rattle.creation.specs.Creation.{made_of, creating_from, creation_tests, create_decision};

use masks::member;
use model::{Capability, Context, Named, Origin, Plan, Refusal};
use origins::authority::RoleColumns;
use origins::numbers::{named_range, origin_named};
use origins::standing::Party;
use origins::terms::{Allowance, admits, in_context, is_below};
use slots::counting::created_in;
use slots::guards::{ensure, raised};
use slots::terms::origin_allows;
use slots::{Decision, Slots, settle};

// The numbers of a request are in their ranges; the first tick is at most the last. Here and in the other families a request's arguments
// stand apart, as its line and its call have them: a struct of them would be made once and taken apart once.
fn in_ranges(user: u32, origin: Named, at: Context, plan: Plan) -> bool
    ensures { result ≡ each (create_ranges user (named_origin origin) at plan) }
{
    user < 64
        && named_range(origin)
        && in_context(at)
        && plan.uses < 65536
        && plan.creations < 65536
        && plan.hops < 65536
        && plan.hours < 16777216
        && plan.places < 65536
        && plan.devices < 65536
        && plan.first <= plan.last
}

// The new capability.
fn made(user: u32, origin: Named, plan: Plan) -> Capability
    ensures { result ≡ made_of user origin plan }
{
    Capability {
        origin: origin_named(origin),
        creator: (user % 64) as u8,
        permissions: 0,
        lent: 0,
        holders: 0,
        first: plan.first,
        last: plan.last,
        use_limit: (plan.uses % 65536) as u16,
        uses: 0,
        creation_limit: (plan.creations % 65536) as u16,
        creations: 0,
        hop_limit: (plan.hops % 65536) as u16,
        hops: 0,
        hours: plan.hours,
        places: (plan.places % 65536) as u16,
        devices: (plan.devices % 65536) as u16,
        revoked: false,
    }
}

// The tests of create, on the new capability as it is made: the origin o is read from its slot and allows a.
#[tactic(auto, unfolding(slots::specs::Guards::first_number))]
fn create_tests(
    v: Slots,
    o: Origin,
    a: Allowance,
    user: u32,
    origin: Named,
    at: Context,
    plan: Plan,
) -> Result<(), Refusal>
    ensures { guarded result ≡ first_number (creation_tests v o (terms_in a) user origin at plan) }
{
    let party = Party {
        origin: o,
        role: &v.role,
        capability: &v.parent,
    };
    ensure(in_ranges(user, origin, at, plan), Refusal::Range)?;
    ensure(
        member(v.enrolled, user) && party.present(v.count),
        Refusal::Missing,
    )?;
    ensure(
        party.has_member(user) && member(a.grants as u64, 0),
        Refusal::Forbidden,
    )?;
    ensure(!a.revoked, Refusal::Revoked)?;
    ensure(party.lives(v.clock), Refusal::Expired)?;
    ensure(admits(a, at), Refusal::Context)?;
    ensure(party.may_create(), Refusal::Exhausted)?;
    ensure(is_below(made(user, origin, plan), a), Refusal::Exceeds)?;
    ensure(v.count < 256, Refusal::Full)
}

// They are the ruling's own: where the ranges pass, the new capability has the numbers of the request.
fn create_guards(
    v: Slots,
    o: Origin,
    a: Allowance,
    user: u32,
    origin: Named,
    at: Context,
    plan: Plan,
) -> Result<(), Refusal>
    ensures tests { guarded result ≡ first_number (creation_tests v o (terms_in a) user origin at plan) }
    ensures ruled { guarded result ≡ first_number (creating_from v o (terms_in a) user origin at plan).guards }
{
    create_tests(v, o, a, user, origin, at, plan)
}

// The slot `role` or `parent` is the origin, the slot `capability` the place of the new capability.
pub fn decide_create(
    v: Slots,
    columns: &RoleColumns,
    user: u32,
    origin: Named,
    at: Context,
    plan: Plan,
) -> Decision
    ensures { ruled_of result ≡ create_decision v columns.now user origin at plan }
{
    let o = origin_named(origin);
    let a = origin_allows(v, columns, o);
    let guards = create_guards(v, o, a, user, origin, at, plan);
    let after = Slots {
        count: raised(v.count, 256),
        parent: created_in(o, v.parent),
        capability: made(user, origin, plan),
        ..v
    };
    settle(v, guards, v.count as u32, after)
}
