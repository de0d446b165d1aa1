// Numbers of one or two digits, as all of a check are that are in range. Of other numbers nothing is said.
ghost use Rattle.std.specs.Prelude.{◌≡◌};
ghost use Rattle.text.specs.Parts.{ends_word};
ghost use Rattle.text.specs.Readers.{Short};

// A word ends before s: s is empty or begins with a space.
fn ends_word(s: &[u8]) -> bool
    ensures { result ≡ ends_word s.now }
{
    matches!(s, [] | [b' ', ..])
}

// The number that a rest begins with, and the rest after it.
pub fn short_number(rest: &[u8]) -> Option<(u32, &[u8])>
    ensures { Short rest.now result }
{
    match rest {
        [_, a @ b'0'..=b'9', rest @ ..] if ends_word(rest) => Some((u32::from(*a - b'0'), rest)),
        [_, a @ b'1'..=b'9', b @ b'0'..=b'9', rest @ ..] if ends_word(rest) => {
            Some((u32::from(*a - b'0') * 10 + u32::from(*b - b'0'), rest))
        }
        _ => None,
    }
}
