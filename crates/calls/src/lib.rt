// The seventeen calls over the register by value: the whole reply is what the definitions say, refusal 15 included. Each names the
// request that it makes: `into()` in place of `Request::Local(..)` would be no plainer, since it hides to which family a call goes; and each takes
// the arguments of its request one by one, as a caller has them.
#![tactic(auto)]

ghost use Rattle.std.specs.Prelude.{◌≡◌};
ghost use Rattle.model.specs.Calls.{step, enrol as enrolCall, found as foundCall, grant as grantCall, withdraw as withdrawCall, appoint as appointCall, dismiss as dismissCall, clock as clockCall, create as createCall, allow as allowCall, lend as lendCall, hand as handCall, opening as openCall, check as checkCall, amend as amendCall, revoke as revokeCall, close as closeCall, same as sameCall};
ghost use Rattle.model.specs.Requests.{effect_of, named_origin, change_of};

use apply::apply;
use model::{Change, Context, LocalRequest, Named, Plan, Register, Reply, Request, TreeRequest};

pub fn enrol(r: Register, user: u32, domain: u32) -> Reply
    ensures { effect_of result ≡ step r (enrolCall user domain) }
{
    apply(r, Request::Local(LocalRequest::Enrol(user, domain)))
}

pub fn found(r: Register, role: u32, domain: u32, hours: u32, places: u32, devices: u32) -> Reply
    ensures { effect_of result ≡ step r (foundCall role domain hours places devices) }
{
    apply(
        r,
        Request::Local(LocalRequest::Found(role, domain, hours, places, devices)),
    )
}

pub fn grant(r: Register, role: u32, permission: u32) -> Reply
    ensures { effect_of result ≡ step r (grantCall role permission) }
{
    apply(r, Request::Local(LocalRequest::Grant(role, permission)))
}

pub fn withdraw(r: Register, role: u32, permission: u32) -> Reply
    ensures { effect_of result ≡ step r (withdrawCall role permission) }
{
    apply(r, Request::Tree(TreeRequest::Withdraw(role, permission)))
}

pub fn appoint(r: Register, user: u32, role: u32) -> Reply
    ensures { effect_of result ≡ step r (appointCall user role) }
{
    apply(r, Request::Local(LocalRequest::Appoint(user, role)))
}

pub fn dismiss(r: Register, user: u32, role: u32) -> Reply
    ensures { effect_of result ≡ step r (dismissCall user role) }
{
    apply(r, Request::Local(LocalRequest::Dismiss(user, role)))
}

pub fn clock(r: Register, tick: u32) -> Reply
    ensures { effect_of result ≡ step r (clockCall tick) }
{
    apply(r, Request::Local(LocalRequest::Clock(tick)))
}

pub fn create(r: Register, user: u32, origin: Named, at: Context, plan: Plan) -> Reply
    ensures { effect_of result ≡ step r (createCall user (named_origin origin) at plan) }
{
    apply(
        r,
        Request::Local(LocalRequest::Create(user, origin, at, plan)),
    )
}

pub fn allow(r: Register, user: u32, capability: u32, permissions: u32) -> Reply
    ensures { effect_of result ≡ step r (allowCall user capability permissions) }
{
    apply(
        r,
        Request::Local(LocalRequest::Allow(user, capability, permissions)),
    )
}

pub fn lend(r: Register, user: u32, capability: u32, roles: u32) -> Reply
    ensures { effect_of result ≡ step r (lendCall user capability roles) }
{
    apply(
        r,
        Request::Local(LocalRequest::Lend(user, capability, roles)),
    )
}

pub fn hand(r: Register, user: u32, receiver: u32, capability: u32) -> Reply
    ensures { effect_of result ≡ step r (handCall user receiver capability) }
{
    apply(
        r,
        Request::Local(LocalRequest::Hand(user, receiver, capability)),
    )
}

pub fn open(r: Register, session: u32, user: u32, on: Named, at: Context) -> Reply
    ensures { effect_of result ≡ step r (openCall session user (named_origin on) at) }
{
    apply(r, Request::Local(LocalRequest::Open(session, user, on, at)))
}

pub fn check(r: Register, session: u32, permission: u32, at: Context) -> Reply
    ensures { effect_of result ≡ step r (checkCall session permission at) }
{
    apply(
        r,
        Request::Local(LocalRequest::Check(session, permission, at)),
    )
}

pub fn amend(r: Register, user: u32, capability: u32, change: Change) -> Reply
    ensures { effect_of result ≡ step r (amendCall user capability (change_of change)) }
{
    apply(
        r,
        Request::Tree(TreeRequest::Amend(user, capability, change)),
    )
}

pub fn revoke(r: Register, user: u32, capability: u32) -> Reply
    ensures { effect_of result ≡ step r (revokeCall user capability) }
{
    apply(r, Request::Tree(TreeRequest::Revoke(user, capability)))
}

pub fn close(r: Register, session: u32) -> Reply
    ensures { effect_of result ≡ step r (closeCall session) }
{
    apply(r, Request::Local(LocalRequest::Close(session)))
}

pub fn same(r: Register, first: u32, second: u32) -> Reply
    ensures { effect_of result ≡ step r (sameCall first second) }
{
    apply(r, Request::Tree(TreeRequest::Same(first, second)))
}
