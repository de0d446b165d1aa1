// What an origin allows, read from its slot.
ghost use Rattle.std.specs.Prelude.{◌≡◌};
ghost use Rattle.origins.specs.Terms.{terms_in};
ghost use Rattle.slots.specs.Terms.{origin_terms};

use crate::Slots;
use model::Origin;
use origins::authority::RoleColumns;
use origins::standing::Party;
use origins::terms::Allowance;

// What the origin o allows, read from the slot `role` or `parent`.
pub fn origin_allows(v: Slots, columns: &RoleColumns, o: Origin) -> Allowance
    ensures { terms_in result ≡ origin_terms v columns.now o }
{
    let party = Party {
        origin: o,
        role: &v.role,
        capability: &v.parent,
    };
    party.allows_by(columns)
}
