// A journal over bytes: an answer for each line, each printed into the part of the output after the one before it.
#![tactic(auto)]

ghost use Rattle.std.specs.Prelude.{◌≡◌, ◌*◌, ◌≤◌, T, length};
ghost use Rattle.masks.specs.Bytes.{front, split};
ghost use Rattle.model.specs.Rules.{well_formed};
ghost use Rattle.model.specs.Calls.{check, settled};
ghost use Rattle.model.specs.Requests.{local_call, tree_call};
ghost use Rattle.model.specs.Journal.{line_effect, transcript};
ghost use Rattle.origins.specs.Authority.{Columns};
ghost use Rattle.dispatch.specs.Decide.{performed};
ghost use Rattle.sweeps.specs.Sweeping.{swept_by};
ghost use Rattle.player.specs.Play.{journal_length, journal_buffer};
ghost use Rattle.player.specs.Steps.{call_in};

use crate::step::{Step, step_of};
use answers::print;
use dispatch::{order_of, perform};
use model::{Answer, Context, LocalRequest, Refusal, Register, TreeRequest};
use origins::authority::{RoleColumns, columns_of};
use origins::numbers::{capability_held, role_held};
use places::{changes_role, names_of};
use rules::well_formed;
use sessions::answer_check;
use sweeps::{Sweep, sweep_all};
use text::parts::count_before;
use tree::orders::Order;

mod step;

// A check, which changes nothing.
#[tactic(auto, using(sessions::proofs::Commits::check_done))]
fn checked(r: &Register, columns: &RoleColumns, number: u32, permission: u32, at: Context) -> Answer
    requires formed { T (well_formed r.now) }
    requires columns { Columns columns.now r.now.roles }
    ensures { performed result r.now ≡ settled r.now (check number permission at) }
{
    let s = r.sessions[(number % 64) as usize];
    let x = r.roles[(role_held(s.on) % 32) as usize];
    let c = r.capabilities[capability_held(s.on) as usize];
    answer_check(r.clock, s, x, c, columns, number, permission, at)
}

// A call that changes only elements that it names. The columns stay where it changes no role. That the register keeps the rules is a
// clause and no type: a journal may begin with one that breaks them, and to wrap it for each line would copy it.
#[tactic(auto, using(dispatch::proofs::Columns::columns_stay))]
#[inline(never)]
fn perform_local(r: &mut Register, columns: &mut RoleColumns, q: LocalRequest) -> Answer
    requires formed { T (well_formed r.old) }
    requires columns { Columns columns.old r.old.roles }
    ensures effect { performed result r.new ≡ settled r.old (local_call q) }
    ensures columns { Columns columns.new r.new.roles }
{
    let answer = perform(r, columns, q);
    if changes_role(names_of(q)) {
        *columns = columns_of(&r.roles);
    }
    answer
}

// A sweep by value. It is no part of `perform_tree`, as a function pays for its locals when it is entered, and most calls only read.
#[inline(never)]
fn sweep(r: &mut Register, columns: &mut RoleColumns, s: Sweep) -> Answer
    requires { length r.old.roles ≡ 32 }
    ensures effect { performed result r.new ≡ swept_by r.old s }
    ensures columns { Columns columns.new r.new.roles }
{
    let reply = sweep_all(*r, s);
    *columns = columns_of(&reply.register.roles);
    *r = reply.register;
    reply.answer
}

// A call over the whole tree.
fn perform_tree(r: &mut Register, columns: &mut RoleColumns, t: TreeRequest) -> Answer
    requires formed { T (well_formed r.old) }
    requires columns { Columns columns.old r.old.roles }
    ensures effect { performed result r.new ≡ settled r.old (tree_call t) }
    ensures columns { Columns columns.new r.new.roles }
{
    match order_of(r, t)? {
        Order::Value(n) => Ok(n),
        Order::Sweep(s) => sweep(r, columns, s),
    }
}

// What is to be done for a line. A function of its own, as it pays for its locals when it is entered, and many lines are refused before.
fn perform_step(r: &mut Register, columns: &mut RoleColumns, step: Step) -> Answer
    requires formed { T (well_formed r.old) }
    requires columns { Columns columns.old r.old.roles }
    ensures effect { performed result r.new ≡ settled r.old (call_in step) }
    ensures columns { Columns columns.new r.new.roles }
{
    match step {
        Step::Check(number, permission, at) => checked(r, columns, number, permission, at),
        Step::One(q) => perform_local(r, columns, q),
        Step::Tree(t) => perform_tree(r, columns, t),
    }
}

// A line. The register is changed in place, since a function that took it by value would copy it for each line. `formed` is what the
// test of the rules says of it, and `columns` are those of its roles.
#[tactic(auto, using(crate::proofs::Laws::line_done))]
fn play_line(r: &mut Register, columns: &mut RoleColumns, formed: bool, line: &[u8]) -> Answer
    requires formed { formed ≡ well_formed r.old }
    requires columns { Columns columns.old r.old.roles }
    ensures effect { performed result r.new ≡ line_effect r.old line.now }
    ensures columns { Columns columns.new r.new.roles }
{
    let step = step_of(formed, line)?;
    perform_step(r, columns, step)
}

// The lines of an input, from any register; the output has room for five bytes a byte. No `for` over the parts between line feeds: the
// last part is answered otherwise, whatever it holds.
#[tactic(auto, using(buffers::proofs::Parts::tail, buffers::proofs::Parts::length_tail, buffers::proofs::Parts::placed_nil, crate::proofs::Transcripts::transcript_done, crate::proofs::Laws::Playing, crate::proofs::Laws::left_fits, crate::proofs::Laws::to_within, crate::proofs::Room::transcript_most))]
fn play(mut r: Register, input: &[u8], out: &mut [u8]) -> usize
    requires { 5 * length input.now ≤ length out.old }
    ensures { (result ≡ length (transcript r (split 10 input.now))) × (out.new ≡ front (transcript r (split 10 input.now)) out.old) × (result ≤ length out.old) }
{
    let formed = well_formed(r);
    let mut columns = columns_of(&r.roles);
    let mut rest = input;
    let mut to = 0;
    while 0 < rest.len() {
        let n = count_before(rest, 10);
        if n == rest.len() {
            return to + print(&mut out[to..], Err(Refusal::Malformed));
        }
        let answer = play_line(&mut r, &mut columns, formed, &rest[..n]);
        to += print(&mut out[to..], answer);
        rest = &rest[n + 1..];
    }
    to
}

// A whole journal, from any register: above 32,768 bytes just `no 1`. Where the output has no room for the longest answer to
// that much input, 163,840 bytes, nothing is written.
#[tactic(auto, using(answers::proofs::AnswerLaws::printed_room, answers::proofs::AnswerLaws::printed_most, crate::proofs::Laws::journal_long, crate::proofs::Laws::journal_short, crate::proofs::Laws::no_room, crate::proofs::Laws::with_room))]
pub fn journal(start: Register, input: &[u8], out: &mut [u8]) -> usize
    ensures { (result ≡ journal_length start input.now out.old) × (out.new ≡ journal_buffer start input.now out.old) × (result ≤ length out.old) }
{
    if out.len() < 163840 {
        return 0;
    }
    if 32768 < input.len() {
        return print(out, Err(Refusal::Malformed));
    }
    play(start, input, out)
}
