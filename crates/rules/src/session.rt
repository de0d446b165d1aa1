// The rules of the sessions.
ghost use Rattle.std.specs.Prelude.{◌≡◌};
ghost use Rattle.masks.specs.Tests.{all_below};
ghost use Rattle.model.specs.State.{session_at};
ghost use Rattle.model.specs.Rules.{session_keeps};

use crate::parties::party_at;
use entries::session::session_keeps;
use model::Register;

#[tactic(auto, using(crate::proofs::Laws::all_more, crate::proofs::Laws::all_done, crate::proofs::Agreement::session_agrees), unfolding(masks::specs::Tests::all_below))]
pub fn sessions_keep(r: &Register) -> bool
    ensures { result ≡ all_below 64 (λ n. session_keeps r.now.enrolled r.now.roles r.now.count r.now.capabilities n (session_at r.now.sessions n)) }
{
    let mut ok = true;
    for s in &r.sessions {
        let party = party_at(r, s.on);
        ok &= session_keeps(r.enrolled, party.present(r.count), party.allows(0, 0), *s);
    }
    ok
}
