// The printer of answers: "prints ok and the value, or no and the number, one line for each line".
#![tactic(auto)]

ghost use Rattle.std.specs.Prelude.{◌≡◌, length};
ghost use Rattle.model.specs.Lines.{digit_count, digits_of, answer_line, printed};
ghost use Rattle.model.specs.Requests.{outcome_of};
ghost use Rattle.answers.specs.Writing.{printed_into, filled};

use model::Answer;

// How many decimal digits n has.
fn digit_count(n: u32) -> usize
    ensures { result ≡ digit_count 9 n }
{
    if n < 10 {
        return 1;
    }
    n.ilog10() as usize + 1
}

// Fills s with the last decimal digits of n, as many as it has bytes.
#[tactic(auto, using(buffers::proofs::Digits::DigitsFrom, crate::proofs::AnswerLaws::digits_begin, buffers::proofs::Digits::digits_step, crate::proofs::AnswerLaws::digits_filled))]
fn put_digits(s: &mut [u8], n: u32)
    ensures { s.new ≡ digits_of (length s.old) n }
{
    let mut x = n;
    for i in (0..s.len()).rev() {
        s[i] = b'0' + (x % 10) as u8;
        x /= 10;
    }
}

// Writes a word of two letters, a space, n and a line feed at the front of s and returns how many bytes that are. Where s
// has no room for them, it returns 0 and writes nothing.
#[tactic(auto, using(crate::proofs::AnswerLaws::none_filled, crate::proofs::AnswerLaws::none_printed))]
fn put_line(s: &mut [u8], word: &[u8; 2], n: u32) -> usize
    ensures { (result ≡ filled (answer_line word.now n) s.old) × (s.new ≡ printed_into (answer_line word.now n) s.old) }
{
    let end = 3 + digit_count(n);
    if s.len() <= end {
        return 0;
    }
    s[0] = word[0];
    s[1] = word[1];
    s[2] = b' ';
    put_digits(&mut s[3..end], n);
    s[end] = b'\n';
    end + 1
}

// Prints an answer at the front of a buffer and returns how many bytes that takes, 5 to 14. Where the buffer has no room
// for them, it returns 0 and writes nothing.
pub fn print(buffer: &mut [u8], answer: Answer) -> usize
    ensures { (result ≡ filled (printed (outcome_of answer)) buffer.old) × (buffer.new ≡ printed_into (printed (outcome_of answer)) buffer.old) }
{
    match answer {
        Ok(v) => put_line(buffer, b"ok", v),
        Err(why) => put_line(buffer, b"no", u32::from(why)),
    }
}
