// The C entry point: one image, one line, and the buffer for the new image.
#![tactic(auto)]

ghost use Rattle.std.specs.Prelude.{◌≡◌, length};
ghost use Rattle.masks.specs.Bytes.{split};
ghost use Rattle.model.specs.Image.{encode};
ghost use Rattle.model.specs.Requests.{outcome_of, call_of, parsed_call};
ghost use Rattle.model.specs.Entry.{fitted, sole_line, entry, returned, buffer_after};
ghost use Rattle.model.specs.Runs.{answer_returned};
ghost use Rattle.fellunqa.specs.Perform.{performed, to_c};

use apply::apply_trusted;
use fields::number::put;
use image::{read_checked, save_trusted};
use model::formed::WellFormed;
use model::{Answer, Refusal, Request};
use requests::parse;
use text::parts::count_before;

// "one line with its line feed (any other bytes get 1)"
#[tactic(auto, using(crate::proofs::Laws::line_whole, crate::proofs::Laws::not_whole))]
fn sole_line(line: &[u8]) -> Option<Request>
    ensures { parsed_call result ≡ sole_line (split 10 line.now) }
{
    let n = count_before(line, 10);
    if n + 1 == line.len() {
        parse(&line[..n])
    } else {
        None
    }
}

// The value v with the image of its register, the length in two bytes before it; 16 where the area has no room, and then nothing is
// written.
#[tactic(auto, using(buffers::proofs::Parts::length_tail, buffers::proofs::Parts::tail_back, crate::proofs::Laws::head_last, crate::proofs::Laws::save_said, crate::proofs::Laws::save_unsaid, crate::proofs::Laws::fitted_room, crate::proofs::Laws::fitted_none, crate::proofs::Laws::leaves_by))]
fn deliver(area: &mut [u8], formed: WellFormed, v: u32) -> Answer
    ensures { (outcome_of result ≡ answer_returned (fitted (length area.old) v (encode formed.register))) × (area.new ≡ buffer_after (fitted (length area.old) v (encode formed.register)) area.old) }
{
    if area.len() < 2 {
        return Err(Refusal::Room);
    }
    let n = save_trusted(formed, &mut area[2..])?;
    put(area, 2, u64::from(n));
    Ok(v)
}

// The call of a request, by value.
#[tactic(auto, using(crate::proofs::Laws::leaves_by, crate::proofs::Laws::after_formed, crate::proofs::Laws::by_value, crate::proofs::Laws::by_refusal))]
fn perform(area: &mut [u8], formed: WellFormed, q: Request) -> Answer
    ensures { (outcome_of result ≡ answer_returned (performed (length area.old) formed.register (call_of q))) × (area.new ≡ buffer_after (performed (length area.old) formed.register (call_of q)) area.old) }
{
    let reply = apply_trusted(formed, q);
    let v = reply.answer?;
    let after = WellFormed {
        register: reply.register,
    };
    deliver(area, after, v)
}

// One call on the register whose image is given.
#[tactic(auto, using(crate::proofs::Laws::leaves_by, crate::proofs::Laws::no_image, crate::proofs::Laws::no_line, crate::proofs::Laws::loaded_formed, crate::proofs::Laws::by_call))]
fn enter(image: &[u8], line: &[u8], area: &mut [u8]) -> Answer
    ensures { (outcome_of result ≡ answer_returned (entry image.now line.now (length area.old))) × (area.new ≡ buffer_after (entry image.now line.now (length area.old)) area.old) }
{
    let read = read_checked(image);
    if !read.exact {
        return Err(Refusal::Image);
    }
    let Some(request) = sole_line(line) else {
        return Err(Refusal::Malformed);
    };
    let formed = WellFormed {
        register: read.register,
    };
    perform(area, formed, request)
}

// "It returns the value, or the refusal as a negative number"
#[tactic(auto, using(crate::proofs::Laws::minus_fits, crate::proofs::Laws::minus_is))]
fn number_of(answer: Answer) -> i64
    ensures { result ≡ to_c (outcome_of answer) }
{
    match answer {
        Ok(v) => i64::from(v),
        Err(why) => -i64::from(u32::from(why)),
    }
}

// One call from C, on the register whose image is given. It returns the value, with the new image's length in two bytes and
// the new image at the front of the area; or a refusal as a negative number, with the area as it was.
#[tactic(auto, using(crate::proofs::Laws::returned_is))]
pub fn fellunqa_apply(image: &[u8], line: &[u8], area: &mut [u8]) -> i64
    ensures { (result ≡ returned (entry image.now line.now (length area.old))) × (area.new ≡ buffer_after (entry image.now line.now (length area.old)) area.old) }
{
    number_of(enter(image, line, area))
}
