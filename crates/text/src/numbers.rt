// Numbers of a line: "Numbers are 0 to 4,294,967,295 without leading zeros".
ghost use Rattle.std.specs.Prelude.{◌≡◌};
ghost use Rattle.model.specs.Lines.{digits as digitsIn, numeral, numbers as numbersIn};
ghost use Rattle.text.specs.Parts.{after};
ghost use Rattle.text.specs.Readers.{seen, number_of, first_number, Leaves};

use crate::parts::next_word;

// The number that the digits of w make.
#[tactic(auto, using(crate::proofs::NumberLaws::digits_turn))]
fn digits(w: &[u8]) -> Option<u32>
    ensures { seen result ≡ digitsIn 0 w.now }
{
    let mut n: u32 = 0;
    for b in w {
        if !b.is_ascii_digit() {
            return None;
        }
        n = n.checked_mul(10)?.checked_add(u32::from(*b - b'0'))?;
    }
    Some(n)
}

// A word as a number.
pub fn read_decimal(w: &[u8]) -> Option<u32>
    ensures { seen result ≡ numeral w.now }
{
    match w {
        [] => None,
        [b'0', _, ..] => None,
        _ => digits(w),
    }
}

// The number that a rest begins with, and the rest after it.
pub fn read_number(rest: &[u8]) -> Option<(u32, &[u8])>
    ensures { (number_of result ≡ first_number (after 32 rest.now)) × Leaves rest.now result }
{
    let (word, rest) = next_word(rest)?;
    Some((read_decimal(word)?, rest))
}

// Exactly N numbers, the last arguments of a line.
#[tactic(auto, using(crate::proofs::NumberLaws::prepend_nil, crate::proofs::NumberLaws::numbers_stop, crate::proofs::NumberLaws::numbers_turn, crate::proofs::NumberLaws::numbers_done, crate::proofs::NumberLaws::numbers_left))]
pub fn read_numbers<const N: usize>(rest: &[u8]) -> Option<[u32; N]>
    ensures { seen result ≡ numbersIn N (after 32 rest.now) }
{
    let mut v = [0; N];
    let mut left = rest;
    for x in v.iter_mut() {
        let (n, after) = read_number(left)?;
        *x = n;
        left = after;
    }
    left.is_empty().then_some(v)
}
