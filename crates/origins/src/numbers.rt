// The numbers of origins: as an element holds them, and as a request names them.
ghost use Rattle.std.specs.Prelude.{◌≡◌};
ghost use Rattle.model.specs.Rules.{is_origin};
ghost use Rattle.model.specs.Requests.{named_origin};
ghost use Rattle.origins.specs.Numbers.{role_held, capability_held, named_in};

use model::{Named, Origin};

// The number of the role, or of the capability, that an element holds; 0 if it is the other. Two functions, since roles and
// capabilities stand in two arrays, and a caller indexes one of them.
pub fn role_held(o: Origin) -> u8
    ensures { result ≡ role_held o }
{
    match o {
        Origin::Role(k) => k,
        Origin::Capability(_) => 0,
    }
}

pub fn capability_held(o: Origin) -> u8
    ensures { result ≡ capability_held o }
{
    match o {
        Origin::Role(_) => 0,
        Origin::Capability(n) => n,
    }
}

// The number that a request names is in its range.
pub fn named_range(o: Named) -> bool
    ensures { result ≡ is_origin (named_origin o) }
{
    match o {
        Named::Role(k) => k < 32,
        Named::Capability(n) => n < 256,
    }
}

// The origin that a request names, its number brought into the range.
pub fn origin_named(o: Named) -> Origin
    ensures { result ≡ named_in o }
{
    match o {
        Named::Role(k) => Origin::Role((k % 32) as u8),
        Named::Capability(n) => Origin::Capability((n % 256) as u8),
    }
}
