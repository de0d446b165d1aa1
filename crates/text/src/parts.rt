// Parts of a line.
ghost use Rattle.std.specs.Prelude.{◌≡◌, ◌∷◌, ◌≤◌, length, drop};
ghost use Rattle.masks.specs.Bytes.{split};
ghost use Rattle.text.specs.Parts.{before, after};
ghost use Rattle.text.specs.Readers.{words_of, Leaves};

// How many bytes of s stand before the first that equals b, or in all of it: where a line ends, with b = 10.
// Out of line it takes fewer steps a byte: in a caller's loop it would count along what the caller makes of the number.
#[inline(never)]
pub fn count_before(s: &[u8], b: u8) -> usize
    ensures { (result ≡ length (before b s.now)) × (result ≤ length s.now) }
{
    s.iter().position(|x| *x == b).unwrap_or(s.len())
}

// A line cut after its first word: that word, and the rest from the separator on.
#[tactic(auto, using(crate::proofs::PartLaws::cut_split))]
pub fn cut_word(line: &[u8]) -> (&[u8], &[u8])
    ensures { (result.0.now ∷ after 32 result.1.now ≡ split 32 line.now) × (result.1.now ≡ drop (length (before 32 line.now)) line.now) }
{
    line.split_at(count_before(line, b' '))
}

// The next word of a rest, which is empty or begins with a separator, and the rest after that word.
pub fn next_word(rest: &[u8]) -> Option<(&[u8], &[u8])>
    ensures { (words_of result ≡ after 32 rest.now) × Leaves rest.now result }
{
    let (_, words) = rest.split_first()?;
    Some(cut_word(words))
}
