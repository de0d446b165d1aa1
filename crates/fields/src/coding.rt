// How a field is written, and a field written and read so.
ghost use Rattle.std.specs.Prelude.{◌≡◌, ◌+◌, ◌<◌, ◌≤◌, T, length, drop};
ghost use Rattle.masks.specs.Bytes.{front};
ghost use Rattle.model.specs.Fields.{width, written, read_field, read_set};
ghost use Rattle.fields.specs.Codes.{coding_of, write_bit};

use crate::number::{get_at, get_map, put, put_map};

// A number or a map of so many bytes, or a mark, which has a bit of the map of fields and no bytes.
#[derive(Clone, Copy, PartialEq, Eq)]
pub enum Coding {
    Number(u8),
    Map(u8),
    Mark,
}

impl Coding {
    // The bytes of a field.
    #[inline(always)]
    pub(crate) fn width(self) -> usize
        ensures { result ≡ width (coding_of self) }
    {
        match self {
            Coding::Number(w) | Coding::Map(w) => usize::from(w),
            Coding::Mark => 0,
        }
    }

    // Writes a field at the front of s; the bytes written.
    #[inline(always)]
    #[tactic(auto, using(crate::proofs::Numbers::lengths))]
    fn put(self, s: &mut [u8], v: u64) -> usize
        requires { length (written (coding_of self) v) ≤ length s.old }
        ensures { (result ≡ length (written (coding_of self) v)) × (s.new ≡ front (written (coding_of self) v) s.old) }
    {
        let k = self.width();
        match self {
            Coding::Number(_) => put(s, k, v),
            Coding::Map(_) => put_map(s, k, v),
            Coding::Mark => {}
        }
        k
    }

    // Writes a field where its bit of the map is set; the bytes written, which no conversion of the bit gives.
    #[inline(always)]
    pub(crate) fn put_if(self, bit: u64, s: &mut [u8], v: u64) -> usize
        requires { length (write_bit bit (coding_of self) v) ≤ length s.old }
        ensures { (result ≡ length (write_bit bit (coding_of self) v)) × (s.new ≡ front (write_bit bit (coding_of self) v) s.old) }
    {
        if bit == 0 { 0 } else { self.put(s, v) }
    }

    // The field at `at`. Bytes past the end are 0.
    #[inline(always)]
    fn read(self, s: &[u8], at: usize) -> u64
        requires { (at < 65536) × (width (coding_of self) ≤ 8) }
        ensures { result ≡ read_field (coding_of self) (drop at s.now) }
    {
        match self {
            Coding::Number(w) => get_at(s, at, usize::from(w)),
            Coding::Map(w) => get_map(s, at, usize::from(w)),
            Coding::Mark => 1,
        }
    }

    // The field at `at` where its bit of the map is set, else 0; a product with the bit would read where there is none.
    #[inline(always)]
    pub(crate) fn read_if(self, bit: u64, s: &[u8], at: usize) -> u64
        requires { (at < 65536) × (width (coding_of self) ≤ 8) }
        ensures { result ≡ read_set bit (coding_of self) (drop at s.now) }
    {
        if bit == 0 { 0 } else { self.read(s, at) }
    }
}
