// Where the elements stand that a request names: numbers from the request, or followed from what was read.
#![tactic(auto)]

ghost use Rattle.std.specs.Prelude.{◌≡◌, ◌%◌, ◌<◌};
ghost use Rattle.places.specs.Requests.{role_in, capability_in, names_of, capability_place, role_place, parent_place, changes_role};

use model::{Capability, LocalRequest, Named, Origin, Session};
use origins::numbers::{capability_held, role_held};

// What the places that a request leaves open are followed from: nothing, also where the role named may change; the capability's
// origin; what the session is on; or the count, where the new capability goes.
#[derive(Clone, Copy)]
pub enum Follow {
    Nothing,
    Role,
    Origin,
    Session,
    Count,
}

// The numbers that a request names, of any size; 0 for what it does not name.
#[derive(Clone, Copy)]
pub struct Names {
    pub user: u32,
    pub role: u32,
    pub parent: u32,
    pub capability: u32,
    pub session: u32,
    pub follow: Follow,
}

const NONE: Names = Names {
    user: 0,
    role: 0,
    parent: 0,
    capability: 0,
    session: 0,
    follow: Follow::Nothing,
};

// A role that may change.
const CHANGED: Names = Names {
    follow: Follow::Role,
    ..NONE
};

// The number of the role, or of the capability, that is named; 0 if it is the other. Two functions, since they index two arrays.
fn role_in(o: Named) -> u32
    ensures { result ≡ role_in o }
{
    match o {
        Named::Role(k) => k,
        Named::Capability(_) => 0,
    }
}

fn capability_in(o: Named) -> u32
    ensures { result ≡ capability_in o }
{
    match o {
        Named::Role(_) => 0,
        Named::Capability(n) => n,
    }
}

pub fn names_of(q: LocalRequest) -> Names
    ensures { result ≡ names_of q }
{
    match q {
        LocalRequest::Enrol(user, _) => Names { user, ..NONE },
        LocalRequest::Found(role, ..) | LocalRequest::Grant(role, _) => Names { role, ..CHANGED },
        LocalRequest::Appoint(user, role) | LocalRequest::Dismiss(user, role) => Names {
            user,
            role,
            ..CHANGED
        },
        LocalRequest::Clock(_) => NONE,
        LocalRequest::Create(_, o, ..) => Names {
            role: role_in(o),
            parent: capability_in(o),
            follow: Follow::Count,
            ..NONE
        },
        LocalRequest::Allow(_, capability, _) | LocalRequest::Lend(_, capability, _) => Names {
            capability,
            follow: Follow::Origin,
            ..NONE
        },
        LocalRequest::Hand(_, _, capability) => Names { capability, ..NONE },
        LocalRequest::Open(session, _, o, _) => Names {
            role: role_in(o),
            capability: capability_in(o),
            session,
            ..NONE
        },
        LocalRequest::Check(session, _, _) => Names {
            session,
            follow: Follow::Session,
            ..NONE
        },
        LocalRequest::Close(session) => Names { session, ..NONE },
    }
}

fn capability_place(follow: Follow, named: u32, on: Origin, count: u16) -> u32
    ensures { result ≡ capability_place follow named on count }
{
    match follow {
        Follow::Nothing | Follow::Role | Follow::Origin => named,
        Follow::Session => capability_held(on) as u32,
        Follow::Count => count as u32,
    }
}

fn role_place(follow: Follow, named: u32, on: Origin, origin: Origin) -> u32
    ensures { result ≡ role_place follow named on origin }
{
    match follow {
        Follow::Nothing | Follow::Role | Follow::Count => named,
        Follow::Origin => role_held(origin) as u32,
        Follow::Session => role_held(on) as u32,
    }
}

fn parent_place(follow: Follow, named: u32, origin: Origin) -> u32
    ensures { result ≡ parent_place follow named origin }
{
    match follow {
        Follow::Nothing | Follow::Role | Follow::Session | Follow::Count => named,
        Follow::Origin => capability_held(origin) as u32,
    }
}

// The request may change the role that it names, so that what is known of all roles is to be made anew.
pub fn changes_role(m: Names) -> bool
    ensures { result ≡ changes_role m.follow }
{
    matches!(m.follow, Follow::Role)
}

// Where the user, the session, the capability, the role and the parent stand that a request names, each within the register: the
// capability by what the session is on, the role and the parent by the capability.
pub fn user_at(m: Names) -> usize
    ensures { (result ≡ m.user % 64) × (result < 64) }
{
    (m.user % 64) as usize
}

pub fn session_at(m: Names) -> usize
    ensures { (result ≡ m.session % 64) × (result < 64) }
{
    (m.session % 64) as usize
}

pub fn capability_at(m: Names, s: Session, count: u16) -> usize
    ensures { (result ≡ capability_place m.follow m.capability s.on count % 256) × (result < 256) }
{
    (capability_place(m.follow, m.capability, s.on, count) % 256) as usize
}

pub fn role_at(m: Names, s: Session, c: Capability) -> usize
    ensures { (result ≡ role_place m.follow m.role s.on c.origin % 32) × (result < 32) }
{
    (role_place(m.follow, m.role, s.on, c.origin) % 32) as usize
}

pub fn parent_at(m: Names, c: Capability) -> usize
    ensures { (result ≡ parent_place m.follow m.parent c.origin % 256) × (result < 256) }
{
    (parent_place(m.follow, m.parent, c.origin) % 256) as usize
}
