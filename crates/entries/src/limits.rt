// Origins, as the rules of one entry ask about them.
ghost use Rattle.std.specs.Prelude.{◌≡◌};
ghost use Rattle.model.specs.Rules.{is_origin, earlier};

use model::Origin;

pub fn is_origin(o: Origin) -> bool
    ensures { result ≡ is_origin o }
{
    match o {
        Origin::Role(k) => k < 32,
        Origin::Capability(_) => true,
    }
}

// A capability's origin has a smaller number where it is a capability.
#[tactic(auto, unfolding(model::specs::Rules::earlier))]
pub fn is_earlier(n: usize, o: Origin) -> bool
    ensures { result ≡ earlier n o }
{
    match o {
        Origin::Role(_) => true,
        Origin::Capability(k) => usize::from(k) < n,
    }
}
