// The fields of a whole record, written and read by the layout of their codings.
ghost use Rattle.std.specs.Prelude.{◌≡◌, ◌+◌, ◌<◌, ◌≤◌, T, length, drop};
ghost use Rattle.masks.specs.Bytes.{front};
ghost use Rattle.model.specs.Fields.{read_present, present_length};
ghost use Rattle.fields.specs.Codes.{codings, narrow, write_marked};

use crate::coding::Coding;
use crate::field::{if_set, put_marked};

// The map of all fields of a record.
pub const ALL: u64 = 0xffff;

// The codings of a record's fields, in their order: at most 16, none of more than 8 bytes.
#[derive(Clone, Copy)]
pub struct Layout<const N: usize> {
    pub codings: [Coding; N],
    pub ghost few: { N ≤ 16 },
    pub ghost narrow: { T (narrow codings) },
}

impl<const N: usize> Layout<N> {
    // Writes the fields whose bit of the map is set, one after another; the bytes written.
    pub fn put(&self, s: &mut [u8], map: u64, values: &[u64; N]) -> usize
        requires { length (write_marked map (codings self.now.codings) values.now) ≤ length s.old }
        ensures { (result ≡ length (write_marked map (codings self.now.codings) values.now)) × (s.new ≡ front (write_marked map (codings self.now.codings) values.now) s.old) }
    {
        put_marked(s, map, &self.codings, values)
    }

    // The fields from `from` on whose bit of the map is set, and 0 for the others; where they end.
    #[tactic(auto, using(crate::proofs::Codes::narrow_at))]
    pub fn read(&self, s: &[u8], from: usize, map: u64) -> ([u64; N], usize)
        requires { from < 60000 }
        ensures { (result.0 ≡ read_present map (codings self.now.codings) (drop from s.now)) × (result.1 ≡ from + present_length map (codings self.now.codings)) }
    {
        let mut values = [0; N];
        let mut at = from;
        let mut bits = map;
        for (i, coding) in self.codings.iter().enumerate() {
            values[i] = coding.read_if(bits % 2, s, at);
            at += if_set(bits % 2, coding.width());
            bits /= 2;
        }
        (values, at)
    }

    // The bytes of the fields whose bit of the map is set.
    #[tactic(auto, using(crate::proofs::Codes::narrow_at))]
    pub fn length(&self, map: u64) -> usize
        ensures { result ≡ present_length map (codings self.now.codings) }
    {
        let mut n = 0;
        let mut bits = map;
        for coding in &self.codings {
            n += if_set(bits % 2, coding.width());
            bits /= 2;
        }
        n
    }
}
