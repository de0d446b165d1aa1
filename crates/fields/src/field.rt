// Maps of fields, which say which of a record's fields are there, and those fields written.
ghost use Rattle.std.specs.Prelude.{◌≡◌, ◌*◌, ◌<◌, ◌≤◌, length};
ghost use Rattle.masks.specs.Bytes.{front};
ghost use Rattle.model.specs.Fields.{write_all, write_present, field_map};
ghost use Rattle.fields.specs.Codes.{codings, write_marked};

use crate::coding::Coding;

// w where the bit is set, else 0. No plainer as a product, which would have to be shown to fit.
pub fn if_set(bit: u64, w: usize) -> usize
    requires { bit < 2 }
    ensures { (result ≡ bit * w) × (result ≤ w) }
{
    if bit == 0 { 0 } else { w }
}

// The map of the fields that are not 0.
#[tactic(auto, using(crate::proofs::Fields::is_set_le, crate::proofs::Codes::map_below, crate::proofs::Codes::set_from))]
pub fn field_map(values: &[u64]) -> u64
    requires { length values.now ≤ 16 }
    ensures { result ≡ field_map values.now }
{
    let mut map = 0;
    for i in (0..values.len()).rev() {
        map = map * 2 + u64::from(values[i] != 0);
    }
    map
}

// Writes the fields whose bit of the map is set, one after another, however many and wide they are; the bytes written.
#[inline(always)]
pub fn put_marked(s: &mut [u8], map: u64, fields: &[Coding], values: &[u64]) -> usize
    requires { (length fields.now ≡ length values.now) × (length (write_marked map (codings fields.now) values.now) ≤ length s.old) }
    ensures { (result ≡ length (write_marked map (codings fields.now) values.now)) × (s.new ≡ front (write_marked map (codings fields.now) values.now) s.old) }
{
    let mut at = 0;
    let mut bits = map;
    for (i, coding) in fields.iter().enumerate() {
        at += coding.put_if(bits % 2, &mut s[at..], values[i]);
        bits /= 2;
    }
    at
}

// Writes all fields one after another, however many and wide they are; the bytes written.
pub fn put_all(s: &mut [u8], fields: &[Coding], values: &[u64]) -> usize
    requires { (length fields.now ≡ length values.now) × (length (write_all (codings fields.now) values.now) ≤ length s.old) }
    ensures { (result ≡ length (write_all (codings fields.now) values.now)) × (s.new ≡ front (write_all (codings fields.now) values.now) s.old) }
{
    let mut at = 0;
    for (i, coding) in fields.iter().enumerate() {
        at += coding.put_if(1, &mut s[at..], values[i]);
    }
    at
}

// Writes the fields that are not 0, likewise; the bytes written.
pub fn put_present(s: &mut [u8], fields: &[Coding], values: &[u64]) -> usize
    requires { (length fields.now ≡ length values.now) × (length (write_present (codings fields.now) values.now) ≤ length s.old) }
    ensures { (result ≡ length (write_present (codings fields.now) values.now)) × (s.new ≡ front (write_present (codings fields.now) values.now) s.old) }
{
    let mut at = 0;
    for (i, coding) in fields.iter().enumerate() {
        at += coding.put_if(u64::from(values[i] != 0), &mut s[at..], values[i]);
    }
    at
}
