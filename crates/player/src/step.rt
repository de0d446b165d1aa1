// What is to be done for a line that is not refused whatever the register holds: it is a check, which changes nothing; it changes only
// elements that it names; or it is a call over the whole tree.
ghost use Rattle.player.specs.Steps.{Fits};

use model::{Context, LocalRequest, Refusal, Request, TreeRequest};
use requests::checks::check_of;
use requests::parse;

#[derive(Clone, Copy)]
pub enum Step {
    Check(u32, u32, Context),
    One(LocalRequest),
    Tree(TreeRequest),
}

// `formed` is what the test of the rules says of the register. A request's word has four letters at least, so that a shorter line is none.
#[tactic(auto, using(crate::proofs::Laws::line_short, crate::proofs::Laws::line_none, crate::proofs::Laws::line_broken, crate::proofs::Laws::line_says))]
pub fn step_of(formed: bool, line: &[u8]) -> Result<Step, Refusal>
    ensures { Fits formed line.now result }
{
    if line.len() < 4 {
        return Err(Refusal::Malformed);
    }
    if formed && let Some((session, permission, context)) = check_of(line) {
        return Ok(Step::Check(session, permission, context));
    }
    let Some(q) = parse(line) else {
        return Err(Refusal::Malformed);
    };
    if !formed {
        return Err(Refusal::Broken);
    }
    match q {
        Request::Local(LocalRequest::Check(session, permission, context)) => {
            Ok(Step::Check(session, permission, context))
        }
        Request::Local(one) => Ok(Step::One(one)),
        Request::Tree(t) => Ok(Step::Tree(t)),
    }
}
