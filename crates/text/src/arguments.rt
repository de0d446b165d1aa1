// Arguments other than plain numbers: `role` or `pass` with its number, and amend's change.
ghost use Rattle.std.specs.Prelude.{◌≡◌};
ghost use Rattle.model.specs.Lines.{origin_in, change_in};
ghost use Rattle.text.specs.Parts.{after};
ghost use Rattle.text.specs.Readers.{name_of, named_of, first_name, by_of, last_change, LeavesTwo};

use crate::numbers::{read_decimal, read_number};
use crate::parts::next_word;
use buffers::same_bytes;
use model::{Change, Named};

// The role or the capability with the number n, by the word before the number.
fn name(kind: &[u8], n: u32) -> Option<Named>
    ensures { name_of result ≡ origin_in kind.now n }
{
    if same_bytes(kind, b"role") {
        Some(Named::Role(n))
    } else if same_bytes(kind, b"pass") {
        Some(Named::Capability(n))
    } else {
        None
    }
}

// `role` or `pass` with its number, and the rest after them.
pub fn read_named(rest: &[u8]) -> Option<(Named, &[u8])>
    ensures { (named_of result ≡ first_name (after 32 rest.now)) × LeavesTwo rest.now result }
{
    let (kind, rest) = next_word(rest)?;
    let (n, rest) = read_number(rest)?;
    Some((name(kind, n)?, rest))
}

// A word as a change: "only amend's change may bear a minus", and "-0 is malformed".
fn read_change(w: &[u8]) -> Option<Change>
    ensures { by_of result ≡ change_in w.now }
{
    match w {
        [b'-', digits @ ..] => match read_decimal(digits)? {
            0 => None,
            d => Some(Change::Lower(d)),
        },
        _ => Some(Change::Raise(read_decimal(w)?)),
    }
}

// A change that is the last argument of a line.
#[tactic(auto, using(crate::proofs::PartLaws::after_word))]
pub fn last_change(rest: &[u8]) -> Option<Change>
    ensures { by_of result ≡ last_change (after 32 rest.now) }
{
    let (word, rest) = next_word(rest)?;
    if !rest.is_empty() {
        return None;
    }
    read_change(word)
}
