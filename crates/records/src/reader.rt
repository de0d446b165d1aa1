// Records read without refusing: bytes that are not there count as 0.
ghost use Rattle.std.specs.Prelude.{◌≡◌, ◌+◌, ◌<◌, drop};
ghost use Rattle.model.specs.Fields.{origin_of, role_codings, role_of, read_role, session_codings, session_of, read_session, head_codings, capability_codings, capability_of, read_capability, capability_length};
ghost use Rattle.fields.specs.Codes.{Bytes, Fitted};
ghost use Rattle.records.specs.Exact.{exact_capability};

use crate::record::{capability_layout, head_layout, role_layout, session_layout};
use fields::field::field_map;
use fields::layout::ALL;
use model::{Capability, Origin, Role, Session};

// A role of its fields, numbered as in its layout and in the definitions, which keep fields and codings as two lists.
#[tactic(auto, unfolding(model::specs::Fields::role_codings, model::specs::Fields::role_of))]
fn role_of(f: [u64; 6]) -> Role
    requires { Fitted role_codings f }
    ensures { result ≡ role_of f }
{
    Role {
        founded: true,
        domain: f[0] as u8,
        permissions: f[1] as u32,
        hours: f[2] as u32,
        places: f[3] as u16,
        devices: f[4] as u16,
        appointed: f[5],
    }
}

// Roles and sessions are each read by their own layout into their own type; a trait for the two would say no less than these lines. Where
// they may begin, and that s holds bytes, stand as clauses, as where numbers are read.
#[tactic(auto, using(crate::proofs::Layouts::role_fitted, crate::proofs::Layouts::role_reads))]
pub fn read_role(s: &[u8], at: usize) -> Role
    requires { (at < 60000) × Bytes s.now }
    ensures { result ≡ read_role (drop at s.now) }
{
    let (fields, _) = role_layout().read(s, at, ALL);
    role_of(fields)
}

// "kind (1: 0 role, 1 pass), number (1)"
#[tactic(auto, using(crate::proofs::Records::origin_capability))]
fn origin_of(kind: u64, n: u64) -> Origin
    requires { n < 256 }
    ensures { result ≡ origin_of kind n }
{
    match kind {
        0 => Origin::Role(n as u8),
        _ => Origin::Capability(n as u8),
    }
}

// A session of its fields, numbered as in its layout and in the definitions.
#[tactic(auto, unfolding(model::specs::Fields::session_codings, model::specs::Fields::session_of))]
fn session_of(f: [u64; 6]) -> Session
    requires { Fitted session_codings f }
    ensures { result ≡ session_of f }
{
    Session {
        active: true,
        user: f[0] as u8,
        on: origin_of(f[1], f[2]),
        hour: f[3] as u8,
        place: f[4] as u8,
        device: f[5] as u8,
    }
}

#[tactic(auto, using(crate::proofs::Layouts::session_fitted, crate::proofs::Layouts::session_reads))]
pub fn read_session(s: &[u8], at: usize) -> Session
    requires { (at < 60000) × Bytes s.now }
    ensures { result ≡ read_session (drop at s.now) }
{
    let (fields, _) = session_layout().read(s, at, ALL);
    session_of(fields)
}

// A capability of its head and its fields, numbered likewise.
#[tactic(auto, using(fields::proofs::Reading::bits_of, fields::proofs::Reading::fitted_fits), unfolding(model::specs::Fields::head_codings, model::specs::Fields::capability_of, model::specs::Fields::capability_codings))]
fn capability_of(h: [u64; 4], f: [u64; 15]) -> Capability
    requires { Fitted head_codings h × Fitted capability_codings f }
    ensures { result ≡ capability_of h f }
{
    Capability {
        origin: origin_of(h[0], h[1]),
        creator: h[2] as u8,
        permissions: f[0] as u32,
        lent: f[1] as u32,
        holders: f[2],
        first: f[3] as u32,
        last: f[4] as u32,
        use_limit: f[5] as u16,
        uses: f[6] as u16,
        creation_limit: f[7] as u16,
        creations: f[8] as u16,
        hop_limit: f[9] as u16,
        hops: f[10] as u16,
        hours: f[11] as u32,
        places: f[12] as u16,
        devices: f[13] as u16,
        revoked: f[14] == 1,
    }
}

// A flag and no Option: what `read_capability` ensures of the capability and of its end holds also where it is not written exactly so.
#[derive(Clone, Copy)]
pub struct ReadCapability {
    pub exact: bool,
    pub capability: Capability,
    pub next: usize,
}

// The capability at `at`, whether it is written exactly so, and the place after it.
#[tactic(auto, using(crate::proofs::Layouts::head_length))]
pub fn read_capability(s: &[u8], at: usize) -> ReadCapability
    requires { (at < 50000) × Bytes s.now }
    ensures { (result.capability ≡ read_capability (drop at s.now)) × (result.next ≡ at + capability_length (drop at s.now)) × (result.exact ≡ exact_capability (drop at s.now)) }
{
    let (head, from) = head_layout().read(s, at, ALL);
    let map = head[3];
    let (fields, next) = capability_layout().read(s, from, map);
    let set = field_map(&fields);
    ReadCapability {
        exact: head[0] < 2 && set == map,
        capability: capability_of(head, fields),
        next,
    }
}
