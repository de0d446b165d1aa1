// Bytes compared. The laws of writing into parts of a buffer stand in this crate too.
#![tactic(auto)]

ghost use Rattle.std.specs.Prelude.{◌≡◌};
ghost use Rattle.masks.specs.Bytes.{same_bytes};

// Whether two slices have the same bytes. In its caller, so that a word that is compared with a constant is told by its length and
// mostly by its first byte; `==` of slices compares four bytes at once, which costs more where most words differ.
#[inline(always)]
#[tactic(auto, using(crate::proofs::Comparing::same_long))]
pub fn same_bytes(a: &[u8], b: &[u8]) -> bool
    ensures { result ≡ same_bytes a.now b.now }
{
    a.len() == b.len() && a.iter().zip(b).all(|(x, y)| x == y)
}
