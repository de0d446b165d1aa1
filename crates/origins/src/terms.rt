// What an origin allows, and the contexts that it admits.
ghost use Rattle.std.specs.Prelude.{◌≡◌};
ghost use Rattle.model.specs.State.{in_context, claims, below, admitted};
ghost use Rattle.origins.specs.Terms.{terms_in, slot_terms, column_terms, bare_in};

use crate::authority::{RoleColumns, granted_by, lendable_by};
use crate::standing::Party;
use masks::{contained, member};
use model::{Capability, Context, Origin, blank_role};

#[derive(Clone, Copy)]
pub struct Allowance {
    pub grants: u32,
    pub lendable: u32,
    pub hours: u32,
    pub places: u16,
    pub devices: u16,
    pub first: u32,
    pub last: u32,
    pub use_limit: u16,
    pub creation_limit: u16,
    pub hop_limit: u16,
    pub revoked: bool,
}

impl<'a> Party<'a> {
    // The terms of a role or a capability that grants `grants` and may lend `lendable`.
    #[tactic(auto, unfolding(crate::specs::Terms::slot_terms))]
    pub fn allows(&self, grants: u32, lendable: u32) -> Allowance
        ensures { terms_in result ≡ slot_terms self.now.origin self.now.role.now self.now.capability.now grants lendable }
    {
        match self.origin {
            Origin::Role(_) => {
                let x = self.role;
                Allowance {
                    grants,
                    lendable,
                    hours: x.hours,
                    places: x.places,
                    devices: x.devices,
                    first: 0,
                    last: u32::MAX,
                    use_limit: u16::MAX,
                    creation_limit: u16::MAX,
                    hop_limit: u16::MAX,
                    revoked: false,
                }
            }
            Origin::Capability(_) => {
                let c = self.capability;
                Allowance {
                    grants,
                    lendable,
                    hours: c.hours,
                    places: c.places,
                    devices: c.devices,
                    first: c.first,
                    last: c.last,
                    use_limit: c.use_limit,
                    creation_limit: c.creation_limit,
                    hop_limit: c.hop_limit,
                    revoked: c.revoked,
                }
            }
        }
    }

    // The same by the columns of the roles.
    pub fn allows_by(&self, columns: &RoleColumns) -> Allowance
        ensures { terms_in result ≡ column_terms columns.now self.now.origin self.now.role.now self.now.capability.now }
    {
        self.allows(
            granted_by(columns, self.origin, *self.capability),
            lendable_by(columns, self.origin, *self.capability),
        )
    }
}

// The same as far as it needs neither the role nor a column: life, limits and the revoked mark.
pub fn bare_allowance(o: Origin, c: Capability) -> Allowance
    ensures { terms_in result ≡ bare_in o c }
{
    let party = Party {
        origin: o,
        role: &blank_role(),
        capability: &c,
    };
    party.allows(0, 0)
}

// Hour, place and device are in their ranges.
#[tactic(auto, using(masks::proofs::Truth::left_each), unfolding(model::specs::State::in_context))]
pub fn in_context(at: Context) -> bool
    ensures { result ≡ in_context at }
{
    at.hour < 24 && at.place < 16 && at.device < 16
}

// All three masks have the context's bit.
#[tactic(auto, using(masks::proofs::Truth::left_each), unfolding(model::specs::State::admitted))]
pub fn admits(t: Allowance, at: Context) -> bool
    ensures { result ≡ admitted (terms_in t) at }
{
    member(u64::from(t.hours), at.hour)
        && member(u64::from(t.places), at.place)
        && member(u64::from(t.devices), at.device)
}

// What a capability claims is within what its origin allows.
#[tactic(auto, using(masks::proofs::Truth::left_each), unfolding(model::specs::State::below, masks::specs::Masks::within))]
pub fn is_below(c: Capability, t: Allowance) -> bool
    ensures { result ≡ below (claims c) (terms_in t) }
{
    contained(c.permissions, t.grants)
        && contained(c.lent, t.lendable)
        && contained(c.hours, t.hours)
        && contained(u32::from(c.places), u32::from(t.places))
        && contained(u32::from(c.devices), u32::from(t.devices))
        && t.first <= c.first
        && c.last <= t.last
        && c.use_limit <= t.use_limit
        && c.creation_limit <= t.creation_limit
        && c.hop_limit <= t.hop_limit
        && (!t.revoked || c.revoked)
}
