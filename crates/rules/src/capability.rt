// The rules of the capabilities.
ghost use Rattle.std.specs.Prelude.{◌≡◌, ℕ, ◌<◌, ◌≤◌, get_or};
ghost use Rattle.masks.specs.Tests.{all_below};
ghost use Rattle.model.specs.State.{capability_at};
ghost use Rattle.model.specs.Rules.{place_keeps};
ghost use Rattle.model.specs.Lineage.{children};
ghost use Rattle.origins.specs.Authority.{Columns};
ghost use Rattle.rules.specs.Columns.{KnownOf};

use crate::columns::{bump, founded_roles, places};
use crate::parties::party_at;
use entries::capability::{Known, keeps_place};
use model::Register;
use origins::authority::{RoleColumns, columns_of};

// How many capabilities were created from each.
#[tactic(auto, using(crate::proofs::Counts::tally_le, crate::proofs::Counts::tally_more, crate::proofs::Counts::tally_at), unfolding(crate::specs::Columns::tally))]
fn children_counted(r: &Register) -> [u16; 256]
    ensures { r.now.count ≤ 256 → (n : ℕ) → n < 256 → get_or result n 0 ≡ children r.now.count r.now.capabilities n }
{
    let mut table = [0; 256];
    for n in 0..places(r.count) {
        bump(&mut table, r.capabilities[n].origin);
    }
    table
}

// The rules of place n, from which `made` capabilities were created.
#[tactic(auto, using(crate::proofs::Agreement::place_agrees))]
fn place_keeps(r: &Register, columns: &RoleColumns, k: Known, made: u16, n: usize) -> bool
    requires { n < 256 }
    ensures { Columns columns.now r.now.roles → KnownOf k r.now → made ≡ children r.now.count r.now.capabilities n
        → result ≡ place_keeps r.now.enrolled r.now.roles r.now.count r.now.capabilities n (capability_at r.now.capabilities n) }
{
    let c = r.capabilities[n];
    let party = party_at(r, c.origin);
    let there = party.present(r.count);
    let u = party.allows_by(columns);
    keeps_place(k, n, there, u, made, c)
}

// The rules of the places below the bound, up to the first that breaks them.
#[tactic(auto, using(crate::proofs::Laws::all_more, crate::proofs::Laws::all_fails), unfolding(masks::specs::Tests::all_below))]
pub fn capabilities_keep(r: &Register, bound: usize) -> bool
    requires { bound ≤ 256 }
    ensures { r.now.count ≤ 256 → result ≡ all_below bound (λ n. place_keeps r.now.enrolled r.now.roles r.now.count r.now.capabilities n (capability_at r.now.capabilities n)) }
{
    let columns = columns_of(&r.roles);
    let known = Known {
        enrolled: r.enrolled,
        founded: founded_roles(&r.roles),
        count: r.count,
    };
    let children = children_counted(r);
    for n in 0..bound {
        if !place_keeps(r, &columns, known, children[n], n) {
            return false;
        }
    }
    true
}
