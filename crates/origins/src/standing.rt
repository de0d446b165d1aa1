// What is asked of an origin, a role or a capability alike.
ghost use Rattle.std.specs.Prelude.{◌≡◌};
ghost use Rattle.model.specs.State.{there, has_member, lives, may_use, may_create};
ghost use Rattle.origins.specs.Standing.{standing};

use masks::member;
use model::{Capability, Origin, Role};

// An origin, and what was read for it: the role that it is, or the capability; the other is not looked at.
#[derive(Clone, Copy)]
pub struct Party<'a> {
    pub origin: Origin,
    pub role: &'a Role,
    pub capability: &'a Capability,
}

impl<'a> Party<'a> {
    // A role is founded, a capability has been created.
    pub fn present(&self, count: u16) -> bool
        ensures { result ≡ there count (standing self.now) }
    {
        match self.origin {
            Origin::Role(_) => self.role.founded,
            Origin::Capability(n) => u16::from(n) < count,
        }
    }

    // The user is appointed to the role, or holds the capability.
    pub fn has_member(&self, user: u32) -> bool
        ensures { result ≡ has_member (standing self.now) user }
    {
        match self.origin {
            Origin::Role(_) => member(self.role.appointed, user),
            Origin::Capability(_) => member(self.capability.holders, user),
        }
    }

    // The tick is in the life: of a capability from its first tick on and before its last (§3.3.2), of a role always (§3.3.3).
    #[tactic(auto, using(masks::proofs::Truth::left_each))]
    pub fn lives(&self, tick: u32) -> bool
        ensures { result ≡ lives (standing self.now) tick }
    {
        match self.origin {
            Origin::Role(_) => true,
            Origin::Capability(_) => self.capability.first <= tick && tick < self.capability.last,
        }
    }

    // Uses are below their limit; a role counts none. Two methods, here and below: one would be told which two fields to compare.
    pub fn may_use(&self) -> bool
        ensures { result ≡ may_use (standing self.now) }
    {
        match self.origin {
            Origin::Role(_) => true,
            Origin::Capability(_) => self.capability.uses < self.capability.use_limit,
        }
    }

    // Creations are below their limit; a role counts none.
    pub fn may_create(&self) -> bool
        ensures { result ≡ may_create (standing self.now) }
    {
        match self.origin {
            Origin::Role(_) => true,
            Origin::Capability(_) => self.capability.creations < self.capability.creation_limit,
        }
    }
}
