// The image of a register, written section by section.
#![tactic(auto)]

ghost use Rattle.std.specs.Prelude.{◌≡◌, ◌≤◌, length};
ghost use Rattle.model.specs.Image.{encode};
ghost use Rattle.encoding.specs.Sections.{Puts, counted_capabilities};

use crate::section::{mask_of, put_capabilities, put_mapped};
use fields::number::put;
use model::{Capability, Register};

pub mod length;
mod section;

// "pass count (2); the passes"; the bytes written. The count is the register's own, of all its places: memory is fixed.
#[tactic(auto, using(crate::proofs::Whole::counted_size, crate::proofs::Whole::counted_written))]
fn put_counted(s: &mut [u8], count: usize, capabilities: &[Capability]) -> usize
    requires { (count ≤ length capabilities.now) × (length (counted_capabilities count capabilities.now) ≤ length s.old) }
    ensures { Puts (counted_capabilities count capabilities.now) result s.old s.new }
{
    put(s, 2, count as u64);
    2 + put_capabilities(&mut s[2..], &capabilities[..count])
}

// Writes a register's image at the front of a buffer that has room for it; the bytes written.
#[tactic(auto, using(crate::proofs::Whole::sections_size))]
pub fn put_image(s: &mut [u8], r: Register) -> usize
    requires { (r.count ≤ 256) × (length (encode r) ≤ length s.old) }
    ensures { Puts (encode r) result s.old s.new }
{
    put(s, 4, u64::from(r.clock));
    let roles_at = 4 + put_mapped(&mut s[4..], 8, r.enrolled, &r.domains);
    let count_at = roles_at + put_mapped(&mut s[roles_at..], 4, mask_of(&r.roles), &r.roles);
    let sessions_at = count_at
        + put_counted(&mut s[count_at..], usize::from(r.count), &r.capabilities);
    sessions_at + put_mapped(&mut s[sessions_at..], 8, mask_of(&r.sessions), &r.sessions)
}
