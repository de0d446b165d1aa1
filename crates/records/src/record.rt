// Roles, sessions and capabilities as bytes.
ghost use Rattle.std.specs.Prelude.{◌≡◌, ◌≤◌, length};
ghost use Rattle.masks.specs.Bytes.{front};
ghost use Rattle.model.specs.Fields.{kind_of, index_of, field_map, role_codings, role_fields, write_role, session_codings, session_fields, write_session, head_codings, capability_codings, capability_fields, head_fields, write_capability};
ghost use Rattle.fields.specs.Codes.{codings};

use fields::coding::Coding::{Map, Mark, Number};
use fields::field::field_map;
use fields::layout::{ALL, Layout};
use model::{Capability, Origin, Role, Session};

// "domain (1), permissions (4), hours (3), places (2), devices (2), appointed (8, as a map)"
#[tactic(auto, unfolding(model::specs::Fields::role_codings))]
pub(crate) fn role_layout() -> Layout<6>
    ensures { codings result.codings ≡ role_codings }
{
    Layout {
        codings: [
            Number(1), // domain
            Number(4), // permissions
            Number(3), // hours
            Number(2), // places
            Number(2), // devices
            Map(8), // appointed
        ],
    }
}

// "user (1), kind (1: 0 role, 1 pass), number (1), hour, place, device (1 each)"
#[tactic(auto, unfolding(model::specs::Fields::session_codings))]
pub(crate) fn session_layout() -> Layout<6>
    ensures { codings result.codings ≡ session_codings }
{
    Layout {
        codings: [Number(1); 6],
    }
}

// "kind, number, creator (1 each), then a 2-byte map as a number"
#[tactic(auto, unfolding(model::specs::Fields::head_codings))]
pub(crate) fn head_layout() -> Layout<4>
    ensures { codings result.codings ≡ head_codings }
{
    Layout {
        codings: [Number(1), Number(1), Number(1), Number(2)],
    }
}

// "0 permissions (4), 1 roles (4), 2 holders (8, as a map), 3 first (4), 4 last (4), 5 to 10 .. (2 each), 11 hours (3),
// 12 places (2), 13 devices (2). Bit 14 is the revoked mark and has no field"
#[tactic(auto, unfolding(model::specs::Fields::capability_codings))]
pub(crate) fn capability_layout() -> Layout<15>
    ensures { codings result.codings ≡ capability_codings }
{
    Layout {
        codings: [
            Number(4), // permissions
            Number(4), // lent
            Map(8), // holders
            Number(4), // first
            Number(4), // last
            Number(2), // use limit
            Number(2), // uses
            Number(2), // creation limit
            Number(2), // creations
            Number(2), // hop limit
            Number(2), // hops
            Number(3), // hours
            Number(2), // places
            Number(2), // devices
            Mark, // revoked
        ],
    }
}

// The numbers of the image, which its format fixes and no derive gives, since a variant holds a number.
fn kind_of(o: Origin) -> u64
    ensures { result ≡ kind_of o }
{
    match o {
        Origin::Role(_) => 0,
        Origin::Capability(_) => 1,
    }
}

fn index_of(o: Origin) -> u64
    ensures { result ≡ index_of o }
{
    match o {
        Origin::Role(k) => k as u64,
        Origin::Capability(n) => n as u64,
    }
}

#[tactic(auto, unfolding(model::specs::Fields::role_fields))]
fn role_fields(x: Role) -> [u64; 6]
    ensures { result ≡ role_fields x }
{
    [
        x.domain as u64,
        x.permissions as u64,
        x.hours as u64,
        x.places as u64,
        x.devices as u64,
        x.appointed,
    ]
}

// Writes a role at the front of a part; the bytes written. `encoding` is generic over what is written: this is its line for a role, and
// `put_session` that for a session.
#[tactic(auto, using(crate::proofs::Layouts::role_written))]
pub fn put_role(s: &mut [u8], x: Role) -> usize
    requires { length (write_role x) ≤ length s.old }
    ensures { (result ≡ length (write_role x)) × (s.new ≡ front (write_role x) s.old) }
{
    role_layout().put(s, ALL, &role_fields(x))
}

#[tactic(auto, unfolding(model::specs::Fields::session_fields))]
fn session_fields(x: Session) -> [u64; 6]
    ensures { result ≡ session_fields x }
{
    [
        x.user as u64,
        kind_of(x.on),
        index_of(x.on),
        x.hour as u64,
        x.place as u64,
        x.device as u64,
    ]
}

// Writes a session at the front of a part; the bytes written.
#[tactic(auto, using(crate::proofs::Layouts::session_written))]
pub fn put_session(s: &mut [u8], x: Session) -> usize
    requires { length (write_session x) ≤ length s.old }
    ensures { (result ≡ length (write_session x)) × (s.new ≡ front (write_session x) s.old) }
{
    session_layout().put(s, ALL, &session_fields(x))
}

#[tactic(auto, using(fields::proofs::Codes::bit_from), unfolding(model::specs::Fields::capability_fields))]
fn capability_fields(c: Capability) -> [u64; 15]
    ensures { result ≡ capability_fields c }
{
    [
        c.permissions as u64,
        c.lent as u64,
        c.holders,
        c.first as u64,
        c.last as u64,
        c.use_limit as u64,
        c.uses as u64,
        c.creation_limit as u64,
        c.creations as u64,
        c.hop_limit as u64,
        c.hops as u64,
        c.hours as u64,
        c.places as u64,
        c.devices as u64,
        u64::from(c.revoked),
    ]
}

#[tactic(auto, unfolding(model::specs::Fields::head_fields))]
fn head_fields(c: Capability, map: u64) -> [u64; 4]
    requires { map ≡ field_map (capability_fields c) }
    ensures { result ≡ head_fields c }
{
    [kind_of(c.origin), index_of(c.origin), c.creator as u64, map]
}

// Writes a capability at the front of a part; the bytes written.
#[tactic(auto, using(buffers::proofs::Parts::length_tail, crate::proofs::Layouts::head_five, crate::proofs::Layouts::present_size))]
pub fn put_capability(s: &mut [u8], c: Capability) -> usize
    requires { length (write_capability c) ≤ length s.old }
    ensures { (result ≡ length (write_capability c)) × (s.new ≡ front (write_capability c) s.old) }
{
    let values = capability_fields(c);
    let map = field_map(&values);
    let n = head_layout().put(s, ALL, &head_fields(c, map));
    n + capability_layout().put(&mut s[n..], map, &values)
}

// The bytes of a capability, of which none is written.
#[tactic(auto, using(crate::proofs::Layouts::head_length, crate::proofs::Layouts::capability_counted))]
pub fn capability_length(c: Capability) -> usize
    ensures { result ≡ length (write_capability c) }
{
    head_layout().length(ALL) + capability_layout().length(field_map(&capability_fields(c)))
}
