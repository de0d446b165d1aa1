// The rules of one session.
ghost use Rattle.std.specs.Prelude.{◌≡◌};
ghost use Rattle.masks.specs.Tests.{each};
ghost use Rattle.model.specs.Rules.{session_blank};
ghost use Rattle.origins.specs.Terms.{terms_in};
ghost use Rattle.entries.specs.Limits.{session_with, session_keeps_with};

use crate::limits::is_origin;
use masks::member;
use model::{Context, Session, blank_session};
use origins::terms::{Allowance, admits, in_context};

// What is kept for a session not open is 0.
#[tactic(auto, using(masks::proofs::Truth::left_each), unfolding(model::specs::Rules::session_blank))]
fn is_blank(s: Session) -> bool
    ensures { result ≡ session_blank s }
{
    s == Session {
        active: s.active,
        ..blank_session()
    }
}

// A session's context has its ranges and is admitted by its role or capability, which allows u.
#[tactic(auto, using(masks::proofs::Truth::left_each))]
fn keeps_all(enrolled: u64, there: bool, u: Allowance, s: Session) -> bool
    ensures { result ≡ each (session_with enrolled there (terms_in u) s) }
{
    let at = Context {
        hour: u32::from(s.hour),
        place: u32::from(s.place),
        device: u32::from(s.device),
    };
    s.user < 64
        && is_origin(s.on)
        && in_context(at)
        && member(enrolled, u32::from(s.user))
        && there
        && admits(u, at)
}

#[tactic(auto, using(masks::proofs::Truth::cond_true, masks::proofs::Truth::cond_false), unfolding(crate::specs::Limits::session_keeps_with))]
pub fn session_keeps(enrolled: u64, there: bool, u: Allowance, s: Session) -> bool
    ensures { result ≡ session_keeps_with enrolled there (terms_in u) s }
{
    if s.active {
        keeps_all(enrolled, there, u, s)
    } else {
        is_blank(s)
    }
}
