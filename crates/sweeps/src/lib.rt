// The sweep over all capabilities in rising number: one loop over leaves that take single capabilities.
#![tactic(auto)]

ghost use Rattle.std.specs.Prelude.{◌≡◌, cond, not, ◌&&◌, ◌||◌, min, length};
ghost use Rattle.std.specs.Int.Bits.{bit_and};
ghost use Rattle.model.specs.Requests.{effect_of};
ghost use Rattle.model.specs.Setters.{with_revoked, with_use_limit, with_permissions};
ghost use Rattle.sweeps.specs.Sweeping.{one_if, swept_one, roles_after, sweep_value, swept_by};

use model::{Capability, Register, Reply, Role};
use origins::authority::{RoleColumns, columns_of, granted_by};
use origins::numbers::capability_held;
use origins::terms::bare_allowance;

// The capability after the sweep has reached it: marked if it was, or is the one named, or its origin is marked by now.
fn marked(c: Capability, named: bool, above: bool) -> Capability
    ensures { result ≡ with_revoked c (c.revoked || (named || above)) }
{
    Capability {
        revoked: c.revoked || (named || above),
        ..c
    }
}

// One capability that is marked now and was not before.
#[tactic(auto, unfolding(crate::specs::Sweeping::one_if))]
fn newly(before: Capability, after: Capability) -> u32
    ensures { result ≡ one_if (after.revoked && not before.revoked) }
{
    u32::from(after.revoked && !before.revoked)
}

// The capability named gets the limit; any other keeps its own, cut to its origin's.
fn limit_for(named: bool, limit: u16, own: u16, bound: u16) -> u16
    ensures { result ≡ cond named limit (min own bound) }
{
    if named { limit } else { own.min(bound) }
}

fn limited(c: Capability, named: bool, limit: u16, bound: u16) -> Capability
    ensures { result ≡ with_use_limit c (cond named limit (min c.use_limit bound)) }
{
    Capability {
        use_limit: limit_for(named, limit, c.use_limit, bound),
        ..c
    }
}

fn cut(c: Capability, grants: u32) -> Capability
    ensures { result ≡ with_permissions c (bit_and c.permissions grants) }
{
    Capability {
        permissions: c.permissions & grants,
        ..c
    }
}

// What a call over the whole tree has done to every capability, in rising number.
#[derive(Clone, Copy)]
pub enum Sweep {
    // revoke marks capability n and all below it
    Mark(u8),
    // amend gives capability n the use limit: "Every pass below is then cut to the new limit, never raised."
    Limit(u8, u16),
    // withdraw leaves role k the permissions p, "cutting own permissions to the origin's authority"
    Cut(u8, u32),
}

// Capability c, which has number i, once the sweep has reached it; its parent is as it is by then.
fn swept(s: Sweep, i: usize, c: Capability, parent: Capability, columns: &RoleColumns) -> Capability
    ensures { result ≡ swept_one s i c parent columns.now }
{
    match s {
        Sweep::Mark(n) => {
            let above = bare_allowance(c.origin, parent).revoked;
            marked(c, i == usize::from(n), above)
        }
        Sweep::Limit(n, limit) => {
            let bound = bare_allowance(c.origin, parent).use_limit;
            limited(c, i == usize::from(n), limit, bound)
        }
        Sweep::Cut(_, _) => cut(c, granted_by(columns, c.origin, parent)),
    }
}

// The roles that the sweep goes by.
fn roles_after(mut roles: [Role; 32], s: Sweep) -> [Role; 32]
    ensures { result ≡ roles_after roles s }
{
    if let Sweep::Cut(k, p) = s {
        roles[usize::from(k % 32)].permissions = p;
    }
    roles
}

// The value of the call: the new marks, the limit, or 0.
fn sweep_value(s: Sweep, marks: u32) -> u32
    ensures { result ≡ sweep_value s marks }
{
    match s {
        Sweep::Mark(_) => marks,
        Sweep::Limit(_, limit) => u32::from(limit),
        Sweep::Cut(_, _) => 0,
    }
}

// One sweep over all capabilities; the register is one local.
#[tactic(auto, unfolding(masks::specs::Tests::rising, masks::specs::Tests::count_below))]
pub fn sweep_all(r: Register, s: Sweep) -> Reply
    requires { length r.roles ≡ 32 }
    ensures { effect_of result ≡ swept_by r s }
{
    let roles = roles_after(r.roles, s);
    let columns = columns_of(&roles);
    let mut next = r;
    next.roles = roles;
    let mut marks: u32 = 0;
    for i in 0..256 {
        let c = next.capabilities[i];
        let parent = next.capabilities[usize::from(capability_held(c.origin))];
        let d = swept(s, i, c, parent, &columns);
        next.capabilities[i] = d;
        marks += newly(c, d);
    }
    Reply {
        answer: Ok(sweep_value(s, marks)),
        register: next,
    }
}
