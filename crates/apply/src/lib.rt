// Any request on a register, by value: the register is tested for the rules once, then the call.
#![tactic(auto)]

ghost use Rattle.std.specs.Prelude.{◌≡◌};
ghost use Rattle.model.specs.Calls.{settled, step};
ghost use Rattle.model.specs.Requests.{effect_of, call_of, local_call, tree_call};

use dispatch::{order_of, perform};
use model::formed::WellFormed;
use model::{LocalRequest, Refusal, Register, Reply, Request, TreeRequest};
use origins::authority::columns_of;
use rules::well_formed;
use sweeps::sweep_all;
use tree::orders::Order;

// A call that changes only elements that it names.
fn apply_local(formed: WellFormed, q: LocalRequest) -> Reply
    ensures { effect_of result ≡ settled formed.register (local_call q) }
{
    let mut r = formed.register;
    let columns = columns_of(&r.roles);
    let answer = perform(&mut r, &columns, q);
    Reply {
        answer,
        register: r,
    }
}

// A call over the whole tree.
fn apply_tree(formed: WellFormed, t: TreeRequest) -> Reply
    ensures { effect_of result ≡ settled formed.register (tree_call t) }
{
    let r = formed.register;
    match order_of(&r, t) {
        Ok(Order::Sweep(s)) => sweep_all(r, s),
        Ok(Order::Value(value)) => Reply {
            answer: Ok(value),
            register: r,
        },
        Err(why) => Reply {
            answer: Err(why),
            register: r,
        },
    }
}

// The call on a register that keeps the rules.
pub fn apply_trusted(formed: WellFormed, q: Request) -> Reply
    ensures { effect_of result ≡ settled formed.register (call_of q) }
{
    match q {
        Request::Local(one) => apply_local(formed, one),
        Request::Tree(t) => apply_tree(formed, t),
    }
}

// "The first that applies is answered: 15 (the register handed in breaks a shelf rule), then .."
#[tactic(auto, using(model::proofs::Settling::broken))]
pub fn apply(r: Register, q: Request) -> Reply
    ensures { effect_of result ≡ step r (call_of q) }
{
    if well_formed(r) {
        apply_trusted(WellFormed { register: r }, q)
    } else {
        Reply {
            answer: Err(Refusal::Broken),
            register: r,
        }
    }
}
