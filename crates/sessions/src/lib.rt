// Sessions: open, check and close, decided over the elements that they name.
#![tactic(auto)]

ghost use Rattle.std.specs.Prelude.{◌≡◌, Bool, ◌%◌};
ghost use Rattle.model.specs.State.{context_of};
ghost use Rattle.model.specs.Requests.{outcome_of, named_origin};
ghost use Rattle.model.specs.Sessions.{new_session, checking, closing};
ghost use Rattle.origins.specs.Numbers.{named_in};
ghost use Rattle.slots.specs.Guards.{guarded, first_number};
ghost use Rattle.slots.specs.Slots.{ruled_of};
ghost use Rattle.sessions.specs.Sessions.{close_decision, permits_in, check_answer, check_decision, opening_on, opening_tests, open_decision};

use masks::member;
use model::{Answer, Capability, Context, Named, Origin, Refusal, Role, Session, blank_session};
use origins::authority::{RoleColumns, granted_by};
use origins::numbers::{named_range, origin_named};
use origins::standing::Party;
use origins::terms::{admits, in_context};
use slots::counting::used_in;
use slots::guards::ensure;
use slots::{Decision, Slots, settle};

// ---- close

#[tactic(auto, unfolding(slots::specs::Guards::first_number))]
fn close_guards(s: Session, session: u32) -> Result<(), Refusal>
    ensures { guarded result ≡ first_number (closing s session).guards }
{
    ensure(session < 64, Refusal::Range)?;
    ensure(s.active, Refusal::Missing)
}

#[tactic(auto, unfolding(crate::specs::Sessions::close_decision))]
pub fn decide_close(v: Slots, session: u32) -> Decision
    ensures { ruled_of result ≡ close_decision v session }
{
    let closed = Slots {
        session: blank_session(),
        ..v
    };
    settle(v, close_guards(v.session, session), 0, closed)
}

// ---- check

// The tests of check; they are the same whatever is permitted.
#[tactic(auto, unfolding(slots::specs::Guards::first_number))]
fn check_guards(s: Session, session: u32, permission: u32, at: Context) -> Result<(), Refusal>
    ensures { (permitted : Bool) → guarded result ≡ first_number (checking s permitted session permission at).guards }
{
    ensure(
        session < 64 && permission < 32 && in_context(at),
        Refusal::Range,
    )?;
    ensure(s.active, Refusal::Missing)
}

// What check answers yes by: of the session, and of the role or the capability that it is on.
#[tactic(auto, unfolding(crate::specs::Sessions::permits_in))]
fn permitted(
    tick: u32,
    s: Session,
    x: Role,
    c: Capability,
    columns: &RoleColumns,
    permission: u32,
    at: Context,
) -> bool
    ensures { result ≡ permits_in tick s x c columns.now permission at }
{
    let party = Party {
        origin: s.on,
        role: &x,
        capability: &c,
    };
    let t = party.allows(granted_by(columns, s.on, c), 0);
    party.has_member(s.user as u32)
        && !t.revoked
        && party.lives(tick)
        && member(t.grants as u64, permission)
        && admits(t, at)
}

// The answer to a check, where yes is the value 1 (§6.13.2), by its session and the role and the capability that this may be on.
// Nothing changes, so that a caller who holds the register needs nothing else. `decide_check` does not call it: a function with one
// caller, here the journal, is inlined. The arguments of check and open come apart, as the requests have them.
pub fn answer_check(
    tick: u32,
    s: Session,
    x: Role,
    c: Capability,
    columns: &RoleColumns,
    session: u32,
    permission: u32,
    at: Context,
) -> Answer
    ensures { outcome_of result ≡ check_answer tick s x c columns.now session permission at }
{
    check_guards(s, session, permission, at)?;
    let yes = permitted(tick, s, x, c, columns, permission, at);
    Ok(u32::from(yes))
}

pub fn decide_check(
    v: Slots,
    columns: &RoleColumns,
    session: u32,
    permission: u32,
    at: Context,
) -> Decision
    ensures { ruled_of result ≡ check_decision v columns.now session permission at }
{
    let guards = check_guards(v.session, session, permission, at);
    let yes = permitted(
        v.clock,
        v.session,
        v.role,
        v.capability,
        columns,
        permission,
        at,
    );
    settle(v, guards, u32::from(yes), v)
}

// ---- open

// The tests of open: the origin o is read from its slot.
#[tactic(auto, using(crate::proofs::Commits::open_agrees), unfolding(slots::specs::Guards::first_number))]
fn open_guards(
    v: Slots,
    o: Origin,
    session: u32,
    user: u32,
    on: Named,
    at: Context,
) -> Result<(), Refusal>
    ensures tests { guarded result ≡ first_number (opening_tests v o session user on at) }
    ensures ruled { o ≡ named_in on → guarded result ≡ first_number (opening_on v (named_origin on) session user at).guards }
{
    let party = Party {
        origin: o,
        role: &v.role,
        capability: &v.capability,
    };
    let t = party.allows(0, 0);
    ensure(
        session < 64 && user < 64 && named_range(on) && in_context(at),
        Refusal::Range,
    )?;
    ensure(
        member(v.enrolled, user) && party.present(v.count),
        Refusal::Missing,
    )?;
    ensure(!v.session.active, Refusal::Unchanged)?;
    ensure(party.has_member(user), Refusal::Forbidden)?;
    ensure(!t.revoked, Refusal::Revoked)?;
    ensure(party.lives(v.clock), Refusal::Expired)?;
    ensure(admits(t, at), Refusal::Context)?;
    ensure(party.may_use(), Refusal::Exhausted)
}

fn new_session(user: u32, o: Origin, at: Context) -> Session
    ensures { result ≡ new_session (user % 64) o (context_of (at.hour % 24) (at.place % 16) (at.device % 16)) }
{
    Session {
        active: true,
        user: (user % 64) as u8,
        on: o,
        hour: (at.hour % 24) as u8,
        place: (at.place % 16) as u8,
        device: (at.device % 16) as u8,
    }
}

pub fn decide_open(v: Slots, session: u32, user: u32, on: Named, at: Context) -> Decision
    ensures { ruled_of result ≡ open_decision v session user on at }
{
    let o = origin_named(on);
    let after = Slots {
        capability: used_in(o, v.capability),
        session: new_session(user, o, at),
        ..v
    };
    settle(v, open_guards(v, o, session, user, on, at), 0, after)
}
