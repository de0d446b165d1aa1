// Administration: enrol, found, grant, appoint, dismiss and clock, decided over the elements that they name.
#![tactic(auto)]

ghost use Rattle.std.specs.Prelude.{◌≡◌};
ghost use Rattle.model.specs.Administration.{enrolling, founding, granting, appointing, dismissing, ticking};
ghost use Rattle.slots.specs.Guards.{guarded, first_number};
ghost use Rattle.slots.specs.Slots.{ruled_of};
ghost use Rattle.administration.specs.Administration.{enrol_decision, found_decision, grant_decision, appoint_decision, dismiss_decision, clock_decision};

use masks::{excluding, including, member};
use model::{Refusal, Role};
use slots::guards::ensure;
use slots::{Decision, Slots, settle};

#[tactic(auto, unfolding(slots::specs::Guards::first_number))]
fn enrol_guards(enrolled: u64, user: u32, domain: u32) -> Result<(), Refusal>
    ensures { guarded result ≡ first_number (enrolling enrolled user domain).guards }
{
    ensure(user < 64 && domain < 8, Refusal::Range)?;
    ensure(!member(enrolled, user), Refusal::Unchanged)
}

#[tactic(auto, using(model::proofs::Settling::passed, origins::proofs::Laws::in_range_lem), unfolding(crate::specs::Administration::enrol_decision))]
pub fn decide_enrol(v: Slots, user: u32, domain: u32) -> Decision
    ensures { ruled_of result ≡ enrol_decision v user domain }
{
    let after = Slots {
        enrolled: including(v.enrolled, user % 64),
        domain: (domain % 8) as u8,
        ..v
    };
    settle(v, enrol_guards(v.enrolled, user, domain), 0, after)
}

// The masks come apart here and below, as the request has them.
#[tactic(auto, unfolding(slots::specs::Guards::first_number))]
fn found_guards(
    x: Role,
    role: u32,
    domain: u32,
    hours: u32,
    places: u32,
    devices: u32,
) -> Result<(), Refusal>
    ensures { guarded result ≡ first_number (founding x role domain hours places devices).guards }
{
    ensure(role < 32 && domain < 8, Refusal::Range)?;
    ensure(
        hours < 16777216 && places < 65536 && devices < 65536,
        Refusal::Range,
    )?;
    ensure(!x.founded, Refusal::Unchanged)
}

#[tactic(auto, using(model::proofs::Settling::passed, origins::proofs::Laws::in_range_lem), unfolding(crate::specs::Administration::found_decision))]
pub fn decide_found(
    v: Slots,
    role: u32,
    domain: u32,
    hours: u32,
    places: u32,
    devices: u32,
) -> Decision
    ensures { ruled_of result ≡ found_decision v role domain hours places devices }
{
    let guards = found_guards(v.role, role, domain, hours, places, devices);
    let new = Role {
        founded: true,
        domain: (domain % 8) as u8,
        permissions: 0,
        hours,
        places: (places % 65536) as u16,
        devices: (devices % 65536) as u16,
        appointed: 0,
    };
    settle(v, guards, 0, Slots { role: new, ..v })
}

#[tactic(auto, unfolding(slots::specs::Guards::first_number))]
fn grant_guards(x: Role, role: u32, permission: u32) -> Result<(), Refusal>
    ensures { guarded result ≡ first_number (granting x role permission).guards }
{
    ensure(role < 32 && permission < 32, Refusal::Range)?;
    ensure(x.founded, Refusal::Missing)?;
    ensure(
        !member(x.permissions as u64, permission),
        Refusal::Unchanged,
    )
}

#[tactic(auto, using(model::proofs::Settling::passed, origins::proofs::Laws::in_range_lem), unfolding(crate::specs::Administration::grant_decision))]
pub fn decide_grant(v: Slots, role: u32, permission: u32) -> Decision
    ensures { ruled_of result ≡ grant_decision v role permission }
{
    let granted = Role {
        permissions: including(v.role.permissions, permission % 32),
        ..v.role
    };
    settle(
        v,
        grant_guards(v.role, role, permission),
        0,
        Slots { role: granted, ..v },
    )
}

#[tactic(auto, unfolding(slots::specs::Guards::first_number))]
fn appoint_guards(enrolled: u64, domain: u8, x: Role, user: u32, role: u32) -> Result<(), Refusal>
    ensures { guarded result ≡ first_number (appointing enrolled domain x user role).guards }
{
    ensure(user < 64 && role < 32, Refusal::Range)?;
    ensure(member(enrolled, user) && x.founded, Refusal::Missing)?;
    ensure(domain == x.domain, Refusal::Domain)?;
    ensure(!member(x.appointed, user), Refusal::Unchanged)
}

#[tactic(auto, using(model::proofs::Settling::passed, origins::proofs::Laws::in_range_lem), unfolding(crate::specs::Administration::appoint_decision))]
pub fn decide_appoint(v: Slots, user: u32, role: u32) -> Decision
    ensures { ruled_of result ≡ appoint_decision v user role }
{
    let guards = appoint_guards(v.enrolled, v.domain, v.role, user, role);
    let joined = Role {
        appointed: including(v.role.appointed, user % 64),
        ..v.role
    };
    settle(v, guards, 0, Slots { role: joined, ..v })
}

#[tactic(auto, unfolding(slots::specs::Guards::first_number))]
fn dismiss_guards(enrolled: u64, x: Role, user: u32, role: u32) -> Result<(), Refusal>
    ensures { guarded result ≡ first_number (dismissing enrolled x user role).guards }
{
    ensure(user < 64 && role < 32, Refusal::Range)?;
    ensure(member(enrolled, user) && x.founded, Refusal::Missing)?;
    ensure(member(x.appointed, user), Refusal::Unchanged)
}

#[tactic(auto, using(model::proofs::Settling::passed, origins::proofs::Laws::in_range_lem), unfolding(crate::specs::Administration::dismiss_decision))]
pub fn decide_dismiss(v: Slots, user: u32, role: u32) -> Decision
    ensures { ruled_of result ≡ dismiss_decision v user role }
{
    let guards = dismiss_guards(v.enrolled, v.role, user, role);
    let left = Role {
        appointed: excluding(v.role.appointed, user % 64),
        ..v.role
    };
    settle(v, guards, 0, Slots { role: left, ..v })
}

#[tactic(auto, unfolding(slots::specs::Guards::first_number))]
fn clock_guards(clock: u32, tick: u32) -> Result<(), Refusal>
    ensures { guarded result ≡ first_number (ticking clock tick).guards }
{
    ensure(clock <= tick, Refusal::Past)
}

#[tactic(auto, unfolding(crate::specs::Administration::clock_decision))]
pub fn decide_clock(v: Slots, tick: u32) -> Decision
    ensures { ruled_of result ≡ clock_decision v tick }
{
    settle(
        v,
        clock_guards(v.clock, tick),
        0,
        Slots { clock: tick, ..v },
    )
}
