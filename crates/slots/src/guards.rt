// The tests of a call, in the document's order: the first that does not hold refuses.
ghost use Rattle.std.specs.Prelude.{◌≡◌, cond};
ghost use Rattle.model.specs.Requests.{refusal_number};
ghost use Rattle.slots.specs.Guards.{guarded, raised_of};

use model::Refusal;

// Passes where the test holds, and refuses where it does not.
pub fn ensure(holds: bool, why: Refusal) -> Result<(), Refusal>
    ensures { guarded result ≡ cond holds 0 (refusal_number why) }
{
    if holds { Ok(()) } else { Err(why) }
}

// One more, below a limit.
#[tactic(auto, unfolding(crate::specs::Guards::raised_of))]
pub fn raised(x: u16, limit: u16) -> u16
    ensures { result ≡ raised_of x limit }
{
    if x < limit { x + 1 } else { x }
}
