// The parser of requests: a line is a word and exactly its arguments.
#![tactic(auto)]

ghost use Rattle.std.specs.Prelude.{◌≡◌, drop};
ghost use Rattle.model.specs.Calls.{enrol, found, grant, withdraw, appoint, dismiss, clock, allow, lend, hand, check, revoke, close, same};
ghost use Rattle.model.specs.Lines.{nth, context_in, of_numbers, create_in, open_in, amend_in, forms, by_word, parse as parsed};
ghost use Rattle.model.specs.Requests.{parsed_call};
ghost use Rattle.text.specs.Parts.{after};

use buffers::same_bytes;
use model::{Context, LocalRequest, Plan, Request, TreeRequest};
use text::arguments::{last_change, read_named};
use text::numbers::{read_number, read_numbers};
use text::parts::cut_word;

pub mod checks;

// Each word's arguments are read by a function of their own: a function pays for its locals when it is entered, and one that held the
// numbers of all words would pay for them on each line, also where no word fits.

// The arguments of create.
#[tactic(auto, using(crate::proofs::RequestLaws::create_by))]
fn create_request(rest: &[u8]) -> Option<Request>
    ensures { parsed_call result ≡ create_in (after 32 rest.now) }
{
    let (user, rest) = read_number(rest)?;
    let (on, rest) = read_named(rest)?;
    let [
        hour,
        place,
        device,
        first,
        last,
        uses,
        creations,
        hops,
        hours,
        places,
        devices,
    ] = read_numbers::<11>(rest)?;
    let at = Context {
        hour,
        place,
        device,
    };
    let plan = Plan {
        first,
        last,
        uses,
        creations,
        hops,
        hours,
        places,
        devices,
    };
    Some(Request::Local(LocalRequest::Create(user, on, at, plan)))
}

// The arguments of open.
#[tactic(auto, using(crate::proofs::RequestLaws::open_by))]
fn open_request(rest: &[u8]) -> Option<Request>
    ensures { parsed_call result ≡ open_in (after 32 rest.now) }
{
    let (session, rest) = read_number(rest)?;
    let (user, rest) = read_number(rest)?;
    let (on, rest) = read_named(rest)?;
    let [hour, place, device] = read_numbers::<3>(rest)?;
    let at = Context {
        hour,
        place,
        device,
    };
    Some(Request::Local(LocalRequest::Open(session, user, on, at)))
}

// The arguments of amend.
fn amend_request(rest: &[u8]) -> Option<Request>
    ensures { parsed_call result ≡ amend_in (after 32 rest.now) }
{
    let (user, rest) = read_number(rest)?;
    let (capability, rest) = read_number(rest)?;
    let change = last_change(rest)?;
    Some(Request::Tree(TreeRequest::Amend(user, capability, change)))
}

// The arguments of enrol.
fn enrol_request(rest: &[u8]) -> Option<Request>
    ensures { parsed_call result ≡ of_numbers 2 (λ v. enrol (nth v 0) (nth v 1)) (after 32 rest.now) }
{
    let [user, domain] = read_numbers::<2>(rest)?;
    Some(Request::Local(LocalRequest::Enrol(user, domain)))
}

// The arguments of found.
fn found_request(rest: &[u8]) -> Option<Request>
    ensures { parsed_call result ≡ of_numbers 5 (λ v. found (nth v 0) (nth v 1) (nth v 2) (nth v 3) (nth v 4)) (after 32 rest.now) }
{
    let [role, domain, hours, places, devices] = read_numbers::<5>(rest)?;
    let found = LocalRequest::Found(role, domain, hours, places, devices);
    Some(Request::Local(found))
}

// The arguments of grant.
fn grant_request(rest: &[u8]) -> Option<Request>
    ensures { parsed_call result ≡ of_numbers 2 (λ v. grant (nth v 0) (nth v 1)) (after 32 rest.now) }
{
    let [role, permission] = read_numbers::<2>(rest)?;
    Some(Request::Local(LocalRequest::Grant(role, permission)))
}

// The arguments of withdraw.
fn withdraw_request(rest: &[u8]) -> Option<Request>
    ensures { parsed_call result ≡ of_numbers 2 (λ v. withdraw (nth v 0) (nth v 1)) (after 32 rest.now) }
{
    let [role, permission] = read_numbers::<2>(rest)?;
    Some(Request::Tree(TreeRequest::Withdraw(role, permission)))
}

// The arguments of appoint.
fn appoint_request(rest: &[u8]) -> Option<Request>
    ensures { parsed_call result ≡ of_numbers 2 (λ v. appoint (nth v 0) (nth v 1)) (after 32 rest.now) }
{
    let [user, role] = read_numbers::<2>(rest)?;
    Some(Request::Local(LocalRequest::Appoint(user, role)))
}

// The arguments of dismiss.
fn dismiss_request(rest: &[u8]) -> Option<Request>
    ensures { parsed_call result ≡ of_numbers 2 (λ v. dismiss (nth v 0) (nth v 1)) (after 32 rest.now) }
{
    let [user, role] = read_numbers::<2>(rest)?;
    Some(Request::Local(LocalRequest::Dismiss(user, role)))
}

// The arguments of clock.
fn clock_request(rest: &[u8]) -> Option<Request>
    ensures { parsed_call result ≡ of_numbers 1 (λ v. clock (nth v 0)) (after 32 rest.now) }
{
    let [tick] = read_numbers::<1>(rest)?;
    Some(Request::Local(LocalRequest::Clock(tick)))
}

// The arguments of allow.
fn allow_request(rest: &[u8]) -> Option<Request>
    ensures { parsed_call result ≡ of_numbers 3 (λ v. allow (nth v 0) (nth v 1) (nth v 2)) (after 32 rest.now) }
{
    let [user, capability, permissions] = read_numbers::<3>(rest)?;
    Some(Request::Local(LocalRequest::Allow(user, capability, permissions)))
}

// The arguments of lend.
fn lend_request(rest: &[u8]) -> Option<Request>
    ensures { parsed_call result ≡ of_numbers 3 (λ v. lend (nth v 0) (nth v 1) (nth v 2)) (after 32 rest.now) }
{
    let [user, capability, roles] = read_numbers::<3>(rest)?;
    Some(Request::Local(LocalRequest::Lend(user, capability, roles)))
}

// The arguments of hand.
fn hand_request(rest: &[u8]) -> Option<Request>
    ensures { parsed_call result ≡ of_numbers 3 (λ v. hand (nth v 0) (nth v 1) (nth v 2)) (after 32 rest.now) }
{
    let [user, receiver, capability] = read_numbers::<3>(rest)?;
    Some(Request::Local(LocalRequest::Hand(user, receiver, capability)))
}

// The arguments of check.
fn check_request(rest: &[u8]) -> Option<Request>
    ensures { parsed_call result ≡ of_numbers 5 (λ v. check (nth v 0) (nth v 1) (context_in 2 v)) (after 32 rest.now) }
{
    let [session, permission, hour, place, device] = read_numbers::<5>(rest)?;
    let at = Context {
        hour,
        place,
        device,
    };
    Some(Request::Local(LocalRequest::Check(session, permission, at)))
}

// The arguments of revoke.
fn revoke_request(rest: &[u8]) -> Option<Request>
    ensures { parsed_call result ≡ of_numbers 2 (λ v. revoke (nth v 0) (nth v 1)) (after 32 rest.now) }
{
    let [user, capability] = read_numbers::<2>(rest)?;
    Some(Request::Tree(TreeRequest::Revoke(user, capability)))
}

// The arguments of close.
fn close_request(rest: &[u8]) -> Option<Request>
    ensures { parsed_call result ≡ of_numbers 1 (λ v. close (nth v 0)) (after 32 rest.now) }
{
    let [session] = read_numbers::<1>(rest)?;
    Some(Request::Local(LocalRequest::Close(session)))
}

// The arguments of same.
fn same_request(rest: &[u8]) -> Option<Request>
    ensures { parsed_call result ≡ of_numbers 2 (λ v. same (nth v 0) (nth v 1)) (after 32 rest.now) }
{
    let [first, second] = read_numbers::<2>(rest)?;
    Some(Request::Tree(TreeRequest::Same(first, second)))
}

// Words are tried one after another: with a `match` on byte strings the proof of the last arm, that no word fits, did not close.
// The request of the words from open to same.
#[tactic(auto, using(crate::proofs::WordLaws::hit, crate::proofs::WordLaws::miss6), unfolding(model::specs::Lines::forms))]
fn session_request(word: &[u8], rest: &[u8]) -> Option<Request>
    ensures { parsed_call result ≡ by_word word.now (after 32 rest.now) (drop 11 forms) }
{
    if same_bytes(word, b"open") {
        return open_request(rest);
    }
    if same_bytes(word, b"check") {
        return check_request(rest);
    }
    if same_bytes(word, b"amend") {
        return amend_request(rest);
    }
    if same_bytes(word, b"revoke") {
        return revoke_request(rest);
    }
    if same_bytes(word, b"close") {
        return close_request(rest);
    }
    if same_bytes(word, b"same") {
        return same_request(rest);
    }
    None
}

// The request of the words from clock to hand.
#[tactic(auto, using(crate::proofs::WordLaws::hit, crate::proofs::WordLaws::miss5), unfolding(model::specs::Lines::forms))]
fn delegation_request(word: &[u8], rest: &[u8]) -> Option<Request>
    ensures { parsed_call result ≡ by_word word.now (after 32 rest.now) (drop 6 forms) }
{
    if same_bytes(word, b"clock") {
        return clock_request(rest);
    }
    if same_bytes(word, b"create") {
        return create_request(rest);
    }
    if same_bytes(word, b"allow") {
        return allow_request(rest);
    }
    if same_bytes(word, b"lend") {
        return lend_request(rest);
    }
    if same_bytes(word, b"hand") {
        return hand_request(rest);
    }
    session_request(word, rest)
}

// The request of a word and the rest of its line: "Request words are compared byte by byte."
#[tactic(auto, using(crate::proofs::WordLaws::hit, crate::proofs::WordLaws::miss6), unfolding(model::specs::Lines::forms))]
fn request_of(word: &[u8], rest: &[u8]) -> Option<Request>
    ensures { parsed_call result ≡ by_word word.now (after 32 rest.now) forms }
{
    if same_bytes(word, b"enrol") {
        return enrol_request(rest);
    }
    if same_bytes(word, b"found") {
        return found_request(rest);
    }
    if same_bytes(word, b"grant") {
        return grant_request(rest);
    }
    if same_bytes(word, b"withdraw") {
        return withdraw_request(rest);
    }
    if same_bytes(word, b"appoint") {
        return appoint_request(rest);
    }
    if same_bytes(word, b"dismiss") {
        return dismiss_request(rest);
    }
    delegation_request(word, rest)
}

// The request of a line without its line feed, or that it is none.
#[tactic(auto, unfolding(model::specs::Lines::parse))]
pub fn parse(line: &[u8]) -> Option<Request>
    ensures { parsed_call result ≡ parsed line.now }
{
    let (word, rest) = cut_word(line);
    request_of(word, rest)
}
