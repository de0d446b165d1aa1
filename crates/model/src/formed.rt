// A register that is known to keep the rules.
ghost use Rattle.std.specs.Prelude.{T};
ghost use Rattle.model.specs.Rules.{well_formed};

use crate::Register;

#[derive(Clone, Copy)]
pub struct WellFormed {
    pub register: Register,
    pub ghost kept: { T (well_formed register) },
}
