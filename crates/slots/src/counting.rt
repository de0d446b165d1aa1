// One use or one creation more, where an origin is a capability. Two functions: over both fields one would take a closure that reads
// the field and one that writes it, which is no plainer.
ghost use Rattle.std.specs.Prelude.{◌≡◌};
ghost use Rattle.slots.specs.Terms.{used_to, created_to};

use crate::guards::raised;
use model::{Capability, Origin};

// A capability with one use more; on a role it stays.
pub fn used_in(o: Origin, c: Capability) -> Capability
    ensures { result ≡ used_to o c }
{
    match o {
        Origin::Role(_) => c,
        Origin::Capability(_) => Capability {
            uses: raised(c.uses, c.use_limit),
            ..c
        },
    }
}

// A capability with one creation more; for a role it stays.
pub fn created_in(o: Origin, c: Capability) -> Capability
    ensures { result ≡ created_to o c }
{
    match o {
        Origin::Role(_) => c,
        Origin::Capability(_) => Capability {
            creations: raised(c.creations, c.creation_limit),
            ..c
        },
    }
}
