// What stands at an origin, read from the register.
ghost use Rattle.rules.specs.Parties.{PartyAt};

use model::{Origin, Register};
use origins::numbers::{capability_held, role_held};
use origins::standing::Party;

pub fn party_at<'a>(r: &'a Register, o: Origin) -> Party<'a>
    ensures { PartyAt r.now o result }
{
    Party {
        origin: o,
        role: &r.roles[(role_held(o) % 32) as usize],
        capability: &r.capabilities[capability_held(o) as usize],
    }
}
