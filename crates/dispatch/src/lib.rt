// To which family a request goes: it is decided over the elements that it names, or comes to an order over the whole tree.
#![tactic(auto)]

ghost use Rattle.std.specs.Prelude.{◌≡◌, T};
ghost use Rattle.model.specs.Rules.{well_formed};
ghost use Rattle.model.specs.Calls.{settled};
ghost use Rattle.slots.specs.Slots.{ruled_of};
ghost use Rattle.tree.specs.Orders.{order_effect};
ghost use Rattle.model.specs.Requests.{local_call, tree_call};
ghost use Rattle.origins.specs.Authority.{Columns};
ghost use Rattle.dispatch.specs.Decide.{decide_of, performed};

use administration::{
    decide_appoint, decide_clock, decide_dismiss, decide_enrol, decide_found, decide_grant,
};
use creation::decide_create;
use giving::{decide_allow, decide_hand, decide_lend};
use model::{Answer, LocalRequest, Refusal, Register, TreeRequest};
use origins::authority::RoleColumns;
use places::{capability_at, names_of, parent_at, role_at, session_at, user_at};
use sessions::{decide_check, decide_close, decide_open};
use slots::{Decision, Slots};
use tree::amending::amend_order;
use tree::comparing::same_order;
use tree::orders::Order;
use tree::revoking::revoke_order;
use tree::withdrawing::withdraw_order;

// A request that changes only elements that it names.
pub fn decide(v: Slots, columns: &RoleColumns, q: LocalRequest) -> Decision
    ensures { ruled_of result ≡ decide_of v columns.now q }
{
    match q {
        LocalRequest::Enrol(user, domain) => decide_enrol(v, user, domain),
        LocalRequest::Found(role, domain, hours, places, devices) => decide_found(
            v, role, domain, hours, places, devices,
        ),
        LocalRequest::Grant(role, permission) => decide_grant(v, role, permission),
        LocalRequest::Appoint(user, role) => decide_appoint(v, user, role),
        LocalRequest::Dismiss(user, role) => decide_dismiss(v, user, role),
        LocalRequest::Clock(tick) => decide_clock(v, tick),
        LocalRequest::Create(user, origin, at, plan) => decide_create(
            v, columns, user, origin, at, plan,
        ),
        LocalRequest::Allow(user, number, mask) => decide_allow(v, columns, user, number, mask),
        LocalRequest::Lend(user, number, mask) => decide_lend(v, columns, user, number, mask),
        LocalRequest::Hand(user, receiver, number) => decide_hand(v, user, receiver, number),
        LocalRequest::Open(session, user, on, at) => decide_open(v, session, user, on, at),
        LocalRequest::Check(session, permission, at) => {
            decide_check(v, columns, session, permission, at)
        }
        LocalRequest::Close(session) => decide_close(v, session),
    }
}

// The same on a register in place: the elements are read, decided and put back. Where the parent stands at the capability's place,
// the capability stays. Clauses and no type say what holds before: the journal lends the one register that it changes.
#[tactic(auto, using(crate::proofs::Commits::commit), unfolding(slots::specs::Slots::put))]
pub fn perform(r: &mut Register, columns: &RoleColumns, q: LocalRequest) -> Answer
    requires formed { T (well_formed r.old) }
    requires kept { Columns columns.now r.old.roles }
    ensures { performed result r.new ≡ settled r.old (local_call q) }
{
    let names = names_of(q);
    let user = user_at(names);
    let session = session_at(names);
    let s = r.sessions[session];
    let capability = capability_at(names, s, r.count);
    let c = r.capabilities[capability];
    let role = role_at(names, s, c);
    let parent = parent_at(names, c);
    let v = Slots {
        clock: r.clock,
        enrolled: r.enrolled,
        count: r.count,
        domain: r.domains[user],
        role: r.roles[role],
        parent: r.capabilities[parent],
        capability: c,
        session: s,
    };
    let Decision { answer, slots } = decide(v, columns, q);
    r.clock = slots.clock;
    r.enrolled = slots.enrolled;
    r.count = slots.count;
    r.domains[user] = slots.domain;
    r.roles[role] = slots.role;
    r.capabilities[parent] = slots.parent;
    r.capabilities[capability] = slots.capability;
    r.sessions[session] = slots.session;
    answer
}

// What a call over the whole tree comes to, on a register that is known to be well-formed: nothing changes yet. A clause says so, as in
// `tree`.
pub fn order_of(r: &Register, t: TreeRequest) -> Result<Order, Refusal>
    requires { T (well_formed r.now) }
    ensures { order_effect r.now result ≡ settled r.now (tree_call t) }
{
    match t {
        TreeRequest::Withdraw(role, permission) => withdraw_order(r, role, permission),
        TreeRequest::Amend(user, number, change) => amend_order(r, user, number, change),
        TreeRequest::Revoke(user, number) => revoke_order(r, user, number),
        TreeRequest::Same(m, n) => same_order(r, m, n),
    }
}
