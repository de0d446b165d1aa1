// The sections of an image: the items of a mask, or the first of a list, one after another.
ghost use Rattle.std.specs.Prelude.{◌≡◌, ◌<◌, ◌≤◌, ◌^◌, Bool, List, ℕ, length};
ghost use Rattle.masks.specs.Bytes.{bytes_of};
ghost use Rattle.model.specs.Fields.{write_role, write_session};
ghost use Rattle.model.specs.Image.{chosen, write_chosen, mask_where, write_capabilities};
ghost use Rattle.encoding.specs.Sections.{Puts, mapped, is_founded, is_active};

use fields::number::{put, put_map};
use model::{Capability, Role, Session};
use records::record::{put_capability, put_role, put_session};

// What a section with a map holds: items that are each written as some bytes.
pub trait Encode: Copy {
    ghost bytes: { Self → List ℕ };

    // Writes the item at the front of a part; the bytes written.
    fn write(self, s: &mut [u8]) -> usize
        requires { length (bytes self) ≤ length s.old }
        ensures { Puts (bytes self) result s.old s.new };
}

// A user's domain byte.
impl Encode for u8 {
    ghost bytes = { bytes_of 1 };

    fn write(self, s: &mut [u8]) -> usize {
        put(s, 1, u64::from(self));
        1
    }
}

impl Encode for Role {
    ghost bytes = { write_role };

    fn write(self, s: &mut [u8]) -> usize {
        put_role(s, self)
    }
}

impl Encode for Session {
    ghost bytes = { write_session };

    fn write(self, s: &mut [u8]) -> usize {
        put_session(s, self)
    }
}

// Items that themselves say whether they stand in the map.
pub trait Marked: Encode {
    ghost marked: { Self → Bool };

    fn is_marked(self) -> bool
        ensures { result ≡ marked self };
}

impl Marked for Role {
    ghost marked = { is_founded };

    fn is_marked(self) -> bool {
        self.founded
    }
}

impl Marked for Session {
    ghost marked = { is_active };

    fn is_marked(self) -> bool {
        self.active
    }
}

// The mask of the items that are marked.
pub fn mask_of<T: Marked>(items: &[T]) -> u64
    requires { length items.now ≤ 64 }
    ensures { (result ≡ mask_where T.marked items.now) × (result < 2 ^ length items.now) }
{
    let mut mask: u64 = 0;
    for item in items.iter().rev() {
        mask = mask * 2 + u64::from(item.is_marked());
    }
    mask
}

// Writes an item where the bit is set; the bytes written, which no conversion of the bit gives.
fn put_if<T: Encode>(s: &mut [u8], bit: u64, item: T) -> usize
    requires { length (chosen bit (T.bytes item)) ≤ length s.old }
    ensures { Puts (chosen bit (T.bytes item)) result s.old s.new }
{
    if bit == 0 { 0 } else { item.write(s) }
}

// Writes the items of a mask; the bytes written.
fn put_chosen<T: Encode>(s: &mut [u8], mask: u64, items: &[T]) -> usize
    requires { length (write_chosen T.bytes mask items.now) ≤ length s.old }
    ensures { Puts (write_chosen T.bytes mask items.now) result s.old s.new }
{
    let mut at = 0;
    let mut left = mask;
    for item in items {
        at += put_if(&mut s[at..], left % 2, *item);
        left /= 2;
    }
    at
}

// Writes a map of w bytes and the items that it has; the bytes written.
#[tactic(auto, using(crate::proofs::Whole::mapped_size, crate::proofs::Whole::mapped_written))]
pub fn put_mapped<T: Encode>(s: &mut [u8], w: usize, mask: u64, items: &[T]) -> usize
    requires { length (mapped w T.bytes mask items.now) ≤ length s.old }
    ensures { Puts (mapped w T.bytes mask items.now) result s.old s.new }
{
    put_map(s, w, mask);
    w + put_chosen(&mut s[w..], mask, items)
}

// Writes capabilities; the bytes written.
pub fn put_capabilities(s: &mut [u8], capabilities: &[Capability]) -> usize
    requires { length (write_capabilities capabilities.now) ≤ length s.old }
    ensures { Puts (write_capabilities capabilities.now) result s.old s.new }
{
    let mut at = 0;
    for c in capabilities {
        at += put_capability(&mut s[at..], *c);
    }
    at
}
