// The register in an image, read section by section without refusing: what has no bit of its map is blank.
#![tactic(auto)]

ghost use Rattle.std.proofs.Common.{rules};
ghost use Rattle.std.specs.Prelude.{◌≡◌, true, ◌<◌, ◌≤◌, ◌+◌, ◌++◌, min, List, ℕ, length, drop};
ghost use Rattle.masks.specs.Bytes.{number_of, first_bytes};
ghost use Rattle.model.specs.State.{blank_role, blank_session};
ghost use Rattle.model.specs.Fields.{read_role, read_session};
ghost use Rattle.model.specs.Image.{item_or, read_chosen, chosen_length, read_capabilities, after_capabilities, decode};
ghost use Rattle.fields.specs.Codes.{Bytes};
ghost use Rattle.records.specs.Exact.{exact_session, exact_capabilities, capabilities_length};
ghost use Rattle.decoding.specs.Exact.{exact_sessions, exact_image, read_domain};

use fields::field::if_set;
use fields::number::{byte_at, get_at, get_map};
use model::{Capability, Register, Role, Session, blank_role, blank_session, fresh};
use records::reader::{read_capability, read_role, read_session};

// What a section with a map holds: items of so many bytes each, blank where the map has no bit.
trait Decode: Copy {
    const WIDTH: usize;

    ghost WIDTH: { ℕ };

    ghost blank: { Self };

    ghost meaning: { List ℕ → Self };

    fn blank() -> Self
        ensures { result ≡ blank };

    // The item at `at`. Bytes past the end are 0.
    fn read(s: &[u8], at: usize) -> Self
        requires { at < 60000 }
        ensures { result ≡ meaning (drop at s.now) };

    ghost narrow: { WIDTH ≤ 20 };
}

// A user's domain byte.
impl Decode for u8 {
    const WIDTH: usize = 1;

    ghost WIDTH = { 1 };

    ghost blank = { 0 };

    ghost meaning = { read_domain };

    ghost narrow = { Prim.search rules };

    fn blank() -> u8 {
        0
    }

    fn read(s: &[u8], at: usize) -> u8 {
        get_at(s, at, 1) as u8
    }
}

impl Decode for Role {
    const WIDTH: usize = 20;

    ghost WIDTH = { 20 };

    ghost blank = { blank_role };

    ghost meaning = { read_role };

    ghost narrow = { Prim.search rules };

    fn blank() -> Role {
        blank_role()
    }

    fn read(s: &[u8], at: usize) -> Role {
        read_role(s, at)
    }
}

impl Decode for Session {
    const WIDTH: usize = 6;

    ghost WIDTH = { 6 };

    ghost blank = { blank_session };

    ghost meaning = { read_session };

    ghost narrow = { Prim.search rules };

    fn blank() -> Session {
        blank_session()
    }

    fn read(s: &[u8], at: usize) -> Session {
        read_session(s, at)
    }
}

// The item at `at` where the bit is set, else the blank one. The bound on `at` is a clause, as where numbers are read.
fn read_if<T: Decode>(s: &[u8], at: usize, bit: u64) -> T
    requires { at < 60000 }
    ensures { result ≡ item_or T.blank T.meaning bit (drop at s.now) }
{
    if bit == 0 { T::blank() } else { T::read(s, at) }
}

// Reads the items of a mask from `from` on, as many as there are rows; where they end.
fn read_chosen<T: Decode>(s: &[u8], from: usize, mask: u64, rows: &mut [T]) -> usize
    requires { (from < 50000) × (length rows.old ≤ 64) }
    ensures { (rows.new ≡ read_chosen T.blank T.meaning T.WIDTH mask (length rows.old) (drop from s.now)) × (result ≡ from + chosen_length T.WIDTH mask (length rows.old)) × (result ≤ from + 1280) }
{
    let mut at = from;
    let mut left = mask;
    for row in rows.iter_mut() {
        let bit = left % 2;
        *row = read_if(s, at, bit);
        at += if_set(bit, T::WIDTH);
        left /= 2;
    }
    at
}

// Whether the session at `at` is written exactly so, where its bit is set.
fn session_exact_if(s: &[u8], at: usize, bit: u64) -> bool
    requires { at < 60000 }
    ensures { result ≡ item_or true exact_session bit (drop at s.now) }
{
    bit == 0 || byte_at(s, at + 1) < 2
}

// Whether the sessions of a mask are written exactly so. The counter has a name only for the loop's invariant.
#[tactic(auto, using(crate::proofs::Reading::sessions_turn))]
fn sessions_exact(s: &[u8], from: usize, mask: u64) -> bool
    requires { from < 50000 }
    ensures { result ≡ exact_sessions mask 64 (drop from s.now) }
{
    let mut exact = true;
    let mut at = from;
    let mut left = mask;
    for _i in 0..64u8 {
        let bit = left % 2;
        exact &= session_exact_if(s, at, bit);
        at += if_set(bit, Session::WIDTH);
        left /= 2;
    }
    exact
}

// Reads capabilities from `from` on, as many as there are rows; whether each is written exactly so, and where they end.
fn read_capabilities(s: &[u8], from: usize, rows: &mut [Capability]) -> (bool, usize)
    requires { (from < 30000) × (length rows.old ≤ 256) }
    ensures rows { rows.new ≡ read_capabilities (length rows.old) (drop from s.now) }
    ensures exact { result.0 ≡ exact_capabilities (length rows.old) (drop from s.now) }
    ensures end { (result.1 ≡ from + capabilities_length (length rows.old) (drop from s.now)) × (result.1 ≤ from + 12288) }
    ensures after { drop result.1 s.now ≡ after_capabilities (length rows.old) (drop from s.now) }
{
    let mut exact = true;
    let mut at = from;
    for row in rows.iter_mut() {
        let read = read_capability(s, at);
        *row = read.capability;
        exact &= read.exact;
        at = read.next;
    }
    (exact, at)
}

// A count, whether its capabilities are each written exactly so, and where they end. A flag and no Option, as in `ReadImage` below.
struct Counted {
    count: u16,
    exact: bool,
    end: usize,
}

// Reads the count at `from` and as many capabilities, but no more than there are rows, of which the others stay.
fn read_counted(s: &[u8], from: usize, rows: &mut [Capability]) -> Counted
    requires { (from < 20000) × (length rows.old ≡ 256) }
    ensures count { result.count ≡ number_of (first_bytes 2 (drop from s.now)) }
    ensures rows { rows.new ≡ read_capabilities (min 256 result.count) (drop (from + 2) s.now) ++ drop (min 256 result.count) rows.old }
    ensures exact { result.exact ≡ exact_capabilities (min 256 result.count) (drop (from + 2) s.now) }
    ensures end { (result.end ≡ from + 2 + capabilities_length (min 256 result.count) (drop (from + 2) s.now)) × (result.end ≤ from + 12290) }
    ensures after { drop result.end s.now ≡ after_capabilities (min 256 result.count) (drop (from + 2) s.now) }
{
    let count = get_at(s, from, 2) as u16;
    let n = usize::from(count).min(256);
    let (exact, end) = read_capabilities(s, from + 2, &mut rows[..n]);
    Counted { count, exact, end }
}

// A flag and no Option: what `read_image` and `read_checked` ensure of the register holds also where the bytes are not exact.
#[derive(Clone, Copy)]
pub struct ReadImage {
    pub exact: bool,
    pub register: Register,
}

// The register in an image, read without refusing, and whether the bytes are what that register saves, if it keeps the rules.
pub fn read_image(s: &[u8]) -> ReadImage
    ensures { (result.register ≡ decode s.now) × (result.exact ≡ exact_image s.now) × Bytes s.now }
{
    let mut r = fresh();
    r.clock = get_at(s, 0, 4) as u32;
    r.enrolled = get_map(s, 4, 8);
    let roles_at = read_chosen(s, 12, r.enrolled, &mut r.domains);
    let founded = get_map(s, roles_at, 4);
    let count_at = read_chosen(s, roles_at + 4, founded, &mut r.roles);
    let Counted {
        count,
        exact,
        end: map_at,
    } = read_counted(s, count_at, &mut r.capabilities);
    r.count = count;
    let active = get_map(s, map_at, 8);
    let end = read_chosen(s, map_at + 8, active, &mut r.sessions);
    // `&` has no branch, so that the proof has one path.
    ReadImage {
        exact: exact & sessions_exact(s, map_at + 8, active) & (end == s.len()),
        register: r,
    }
}
