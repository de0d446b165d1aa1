// The test of all rules of the register, in one sweep.
#![tactic(auto)]

mod capability;
mod columns;
mod parties;
mod roles;
mod session;

ghost use Rattle.std.specs.Prelude.{◌≡◌, ◌≤◌};
ghost use Rattle.model.specs.Rules.{well_formed};
ghost use Rattle.rules.specs.Columns.{BlankFrom};

use capability::capabilities_keep;
use columns::places;
use model::Register;
use roles::{roles_keep, users_keep};
use session::sessions_keep;

// The rules, where the places from the bound on are known to be blank.
#[tactic(auto, using(crate::proofs::Agreement::register_agrees, crate::proofs::Agreement::blank_rest))]
fn keeps_below(r: Register, bound: usize) -> bool
    requires { (bound ≤ 256) × (r.count ≤ 256 → BlankFrom r bound) }
    ensures { result ≡ well_formed r }
{
    let users = users_keep(r.enrolled, &r.domains);
    let roles = roles_keep(r.enrolled, &r.domains, &r.roles);
    let capabilities = capabilities_keep(&r, bound);
    let sessions = sessions_keep(&r);
    // `&` and not `&&`: the proof has one path, and did not close with one for each test.
    (r.count <= 256) & users & roles & capabilities & sessions
}

// The register keeps all rules.
pub fn well_formed(r: Register) -> bool
    ensures { result ≡ well_formed r }
{
    keeps_below(r, 256)
}

// The same of a register whose places from its count on are known to be blank, as those of one just read are.
pub fn well_formed_read(r: Register) -> bool
    requires { r.count ≤ 256 → BlankFrom r r.count }
    ensures { result ≡ well_formed r }
{
    keeps_below(r, places(r.count))
}
