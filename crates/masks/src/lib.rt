// Masks: bit k stands for item k. This crate knows nothing of the register.
#![tactic(auto)]

ghost use Rattle.std.specs.Prelude.{◌≡◌, ℕ, cond, ◌+◌, ◌<◌, ◌≤◌, ◌^◌, get_or};
ghost use Rattle.std.specs.Int.Bits.{bit_or, bit_xor};
ghost use Rattle.masks.specs.Masks.{has, within, including, excluding, joined};

use std::ops::{BitOr, BitXor};

// Item k of a mask, for any number k.
#[tactic(auto, using(crate::proofs::MaskLaws::no_bit), unfolding(crate::specs::Masks::has))]
pub fn member(mask: u64, k: u32) -> bool
    ensures { result ≡ has mask k }
{
    k < 64 && (mask >> k) % 2 == 1
}

// Every item of the mask a is one of b.
#[tactic(auto, unfolding(crate::specs::Masks::within))]
pub fn contained(a: u32, b: u32) -> bool
    ensures { result ≡ within a b }
{
    a & b == a
}

// The numbers that serve as masks.
pub trait Mask: BitOr<Output = Self> + BitXor<Output = Self> {
    // How many items one can have, and the number that it is.
    ghost width: { ℕ };

    ghost number: { Self → ℕ };

    // The mask of item k alone.
    fn bit(k: u32) -> Self
        requires { k < width }
        ensures { number result ≡ 2 ^ k };

    ghost defined: { (a b : Self) → Self.BitOr.can_bitor a b × Self.BitXor.can_bitxor a b };

    ghost or_law: { (a b r : Self) → Self.BitOr.bitor_gives a b r → number r ≡ bit_or (number a) (number b) };

    ghost xor_law: { (a b r : Self) → Self.BitXor.bitxor_gives a b r → number r ≡ bit_xor (number a) (number b) };
}

// Two impls that differ in the type: no macro writes impls here, and `1 << k` needs a type.
impl Mask for u32 {
    ghost width = { 32 };

    ghost number = { λ m. m };

    #[tactic(auto, using(crate::proofs::MaskLaws::one_shl))]
    fn bit(k: u32) -> u32 {
        1 << k
    }

    ghost defined = { λ _ _. (tt, tt) };

    ghost or_law = { λ _ _ _ e. e };

    ghost xor_law = { λ _ _ _ e. e };
}

impl Mask for u64 {
    ghost width = { 64 };

    ghost number = { λ m. m };

    #[tactic(auto, using(crate::proofs::MaskLaws::one_shl))]
    fn bit(k: u32) -> u64 {
        1 << k
    }

    ghost defined = { λ _ _. (tt, tt) };

    ghost or_law = { λ _ _ _ e. e };

    ghost xor_law = { λ _ _ _ e. e };
}

// A mask with item k put in.
#[tactic(auto, unfolding(crate::specs::Masks::including))]
pub fn including<M: Mask>(mask: M, k: u32) -> M
    requires { k < M.width }
    ensures { M.number result ≡ including (M.number mask) k }
{
    mask | M::bit(k)
}

// A mask that has item k, with it taken out.
#[tactic(auto, unfolding(crate::specs::Masks::excluding))]
pub fn excluding<M: Mask>(mask: M, k: u32) -> M
    requires { k < M.width }
    ensures { M.number result ≡ excluding (M.number mask) k }
{
    mask ^ M::bit(k)
}

// The mask p where item k is in the mask, else none.
#[tactic(auto, using(crate::proofs::Truth::told))]
fn chosen(p: u32, mask: u32, k: u32) -> u32
    ensures { result ≡ cond (has mask k) p 0 }
{
    if member(u64::from(mask), k) { p } else { 0 }
}

// The masks of the items of a mask, one after the other.
#[tactic(auto, using(crate::proofs::JoinLaws::joined_more), unfolding(crate::specs::Masks::joined))]
fn join_each(column: &[u32; 32], mask: u32) -> u32
    ensures { result ≡ joined (λ k. get_or column.now k 0) mask 32 }
{
    let mut sum = 0;
    for k in 0..32 {
        sum |= chosen(column[k as usize], mask, k);
    }
    sum
}

// The masks of the items of a mask, joined; the column has that of each item. It is quick where there is at most one item, as in the
// lent roles of every register that keeps the rules.
#[tactic(auto, using(crate::proofs::JoinLaws::joined_none, crate::proofs::JoinLaws::column_single))]
pub fn join(column: &[u32; 32], mask: u32) -> u32
    ensures { result ≡ joined (λ k. get_or column.now k 0) mask 32 }
{
    let k = (mask.trailing_zeros() % 32) as usize;
    if mask == 0 {
        0
    } else if mask == 1 << k {
        column[k]
    } else {
        join_each(column, mask)
    }
}
