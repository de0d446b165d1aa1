// A list of requests, of which the first 64 are answered, from any register: each gets the register that the one before it left.
// What is answered is the definition over lists, `run` and `answers`.
#![tactic(auto)]

ghost use Rattle.std.specs.Prelude.{◌≡◌, ◌++◌, ◌-◌, ◌≤◌, T, length, replicate};
ghost use Rattle.model.specs.Rules.{well_formed};
ghost use Rattle.model.specs.Rulings.{value, refused};
ghost use Rattle.model.specs.Lists.{run};
ghost use Rattle.batch.specs.Batch.{calls_of, outcomes_of, padded_answers};

use apply::apply_trusted;
use model::formed::WellFormed;
use model::{Answer, Refusal, Register, Request};
use rules::well_formed;

// The register after the list, and an answer for each request; `Ok(0)` in the places after them.
#[derive(Clone, Copy)]
pub struct Played {
    pub register: Register,
    pub answers: [Answer; 64],
}

// n refusals with 15: a register that breaks a rule refuses every request, and stays as it is.
#[tactic(auto, using(crate::proofs::Laws::refused_more))]
fn refusals(n: usize) -> [Answer; 64]
    requires { n ≤ 64 }
    ensures { outcomes_of result ≡ replicate n (refused 15) ++ replicate (64 - n) (value 0) }
{
    let mut answers = [Ok(0); 64];
    for i in 0..n {
        answers[i] = Err(Refusal::Broken);
    }
    answers
}

// At most 64 requests, on a register that is known to be well-formed; each call goes by value.
fn apply_formed(start: WellFormed, requests: &[Request]) -> Played
    requires { length requests.now ≤ 64 }
    ensures { (result.register ≡ run start.register (calls_of requests.now)) × (outcomes_of result.answers ≡ padded_answers start.register requests.now) }
{
    let mut register = start.register;
    let mut answers = [Ok(0); 64];
    for (i, request) in requests.iter().enumerate() {
        let reply = apply_trusted(WellFormed { register }, *request);
        answers[i] = reply.answer;
        register = reply.register;
    }
    Played { register, answers }
}

// The first 64 of the requests. The rules are tested once: each call keeps them.
#[tactic(auto, using(crate::proofs::Laws::all_broken, crate::proofs::Laws::all_formed))]
pub fn apply_all(start: Register, requests: &[Request]) -> Played
    ensures { (result.register ≡ run start (calls_of requests.now)) × (outcomes_of result.answers ≡ padded_answers start requests.now) }
{
    let n = requests.len().min(64);
    if well_formed(start) {
        apply_formed(WellFormed { register: start }, &requests[..n])
    } else {
        Played {
            register: start,
            answers: refusals(n),
        }
    }
}
