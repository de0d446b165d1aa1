// Numbers and maps as bytes, written at the front of a part and read from any place.
ghost use Rattle.std.specs.Prelude.{◌≡◌, ◌+◌, ◌<◌, ◌≤◌, length, take, drop, get_or};
ghost use Rattle.masks.specs.Bytes.{bytes_of, number_of, map_bytes, mask_of, first_bytes, front};

// Writes n as k bytes, high byte first, at the front of s.
#[tactic(auto, using(buffers::proofs::Digits::DigitsFrom, buffers::proofs::Digits::digits_start, buffers::proofs::Digits::digits_step, buffers::proofs::Digits::digits_done, crate::proofs::Parts::byte_digits))]
pub fn put(s: &mut [u8], k: usize, n: u64)
    requires { k ≤ length s.old }
    ensures { s.new ≡ front (bytes_of k n) s.old }
{
    let mut x = n;
    for i in (0..k).rev() {
        s[i] = (x % 256) as u8;
        x /= 256;
    }
}

// Writes a mask as a map of k bytes at the front of s.
// No plainer as one function with `put`: it would be told the order of the bytes, for a loop of two lines.
#[tactic(auto, using(buffers::proofs::Parts::placed, buffers::proofs::Parts::placed_nil, crate::proofs::Parts::map_turn))]
pub fn put_map(s: &mut [u8], k: usize, n: u64)
    requires { k ≤ length s.old }
    ensures { s.new ≡ front (map_bytes k n) s.old }
{
    let mut x = n;
    for i in 0..k {
        s[i] = (x % 256) as u8;
        x /= 256;
    }
}

// The byte at i, or 0 past the end.
pub fn byte_at(s: &[u8], i: usize) -> u64
    ensures { (result ≡ get_or s.now i 0) × (result < 256) }
{
    if i < s.len() { u64::from(s[i]) } else { 0 }
}

// The number with the bytes s, high byte first.
#[tactic(auto, using(crate::proofs::Parts::byte_step, crate::proofs::Parts::byte_fits, crate::proofs::Parts::number_turn))]
#[inline(always)]
fn number_of(s: &[u8]) -> u64
    requires { length s.now ≤ 8 }
    ensures { result ≡ number_of s.now }
{
    let mut x = 0;
    for byte in s {
        x = x * 256 + u64::from(*byte);
    }
    x
}

// The mask of a map with the bytes s, low byte first.
#[tactic(auto, using(crate::proofs::Parts::byte_step, crate::proofs::Parts::byte_fits, crate::proofs::Parts::mask_turn))]
fn mask_of(s: &[u8]) -> u64
    requires { length s.now ≤ 8 }
    ensures { result ≡ mask_of s.now }
{
    let mut x = 0;
    for i in (0..s.len()).rev() {
        x = x * 256 + u64::from(s[i]);
    }
    x
}

// The number in the first k bytes, not all of which need be there: those past the end are 0, which a shift gives.
#[tactic(auto, using(crate::proofs::Window::number_cut))]
#[cold]
#[inline(never)]
fn number_past(s: &[u8], k: usize) -> u64
    requires { (0 < length s.now) × (k ≤ 8) }
    ensures { result ≡ number_of (first_bytes k s.now) }
{
    let n = k.min(s.len());
    number_of(&s[..n]) << (8 * (k - n))
}

// The number in the k bytes from `at` on. Bytes past the end are 0; where 8 are there, they are read at once. The bounds on `at` and k
// stand as clauses: a cursor that kept them would be made anew for each field.
#[tactic(auto, using(crate::proofs::Window::number_window, crate::proofs::Window::number_none))]
#[inline(always)]
pub fn get_at(s: &[u8], at: usize, k: usize) -> u64
    requires { (at < 65536) × (k ≤ 8) }
    ensures { result ≡ number_of (first_bytes k (drop at s.now)) }
{
    if k == 0 {
        return 0;
    }
    if at + 8 <= s.len() {
        number_of(&s[at..at + 8]) >> (64 - 8 * k)
    } else if at < s.len() {
        number_past(&s[at..], k)
    } else {
        0
    }
}

// The mask of the map of k bytes from `at` on. Bytes past the end are 0; of an image there are none, so the end is asked for once.
#[tactic(auto, using(crate::proofs::Parts::part_there, crate::proofs::Window::mask_cut, crate::proofs::Window::mask_none))]
#[inline(always)]
pub fn get_map(s: &[u8], at: usize, k: usize) -> u64
    requires { (at < 65536) × (k ≤ 8) }
    ensures { result ≡ mask_of (first_bytes k (drop at s.now)) }
{
    if at + k <= s.len() {
        mask_of(&s[at..at + k])
    } else if at < s.len() {
        mask_of(&s[at..])
    } else {
        0
    }
}
