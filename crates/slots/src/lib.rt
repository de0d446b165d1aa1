// What one call reads and writes: the few elements of the register that it names. A call is decided over these and put back.
#![tactic(auto)]

pub mod counting;
pub mod guards;
pub mod terms;

ghost use Rattle.std.specs.Prelude.{◌≡◌, List, ℕ, T};
ghost use Rattle.model.specs.Rulings.{Guard, settle as settled, Clear};
ghost use Rattle.slots.specs.declared.Slots.{Slots as SlotsHeld};
ghost use Rattle.slots.specs.Guards.{guarded, first_number, numbered};
ghost use Rattle.slots.specs.Slots.{ruled_of};

use model::{Answer, Capability, Refusal, Role, Session};

// The elements that a call names; an element that it does not name is written back as it was.
#[derive(Clone, Copy)]
pub struct Slots {
    pub clock: u32,
    pub enrolled: u64,
    pub count: u16,
    pub domain: u8,
    pub role: Role,
    pub parent: Capability,
    pub capability: Capability,
    pub session: Session,
}

// An answer, and the elements after the call: a refusal gives them back as they came.
#[derive(Clone, Copy)]
pub struct Decision {
    pub answer: Answer,
    pub slots: Slots,
}

// A call, whatever its guards: refused, the elements v stay as they came; else w is put in their place. Value and elements need be
// the call's only where no guard applies.
#[tactic(auto, using(crate::proofs::GuardLaws::pass_clear, crate::proofs::GuardLaws::refuse_ruled, crate::proofs::GuardLaws::pass_ruled))]
pub fn settle(v: Slots, k: Result<(), Refusal>, value: u32, w: Slots) -> Decision
    ensures { (gs : List Guard) (n : ℕ) (u : SlotsHeld) → T (numbered gs) → guarded k ≡ first_number gs → (Clear gs → (value ≡ n) × (w ≡ u)) → ruled_of result ≡ settled v gs n u }
{
    match k {
        Err(why) => Decision {
            answer: Err(why),
            slots: v,
        },
        Ok(()) => Decision {
            answer: Ok(value),
            slots: w,
        },
    }
}
