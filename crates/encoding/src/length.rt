// The length of an image, of which nothing is written.
ghost use Rattle.std.specs.Prelude.{◌≡◌, ◌≤◌, length};
ghost use Rattle.std.specs.Int.Count.{ones};
ghost use Rattle.model.specs.Image.{encode};

use crate::section::mask_of;
use model::formed::WellFormed;
use records::record::capability_length;

// How many items a mask has.
fn items(mask: u64) -> usize
    ensures { (result ≡ ones mask) × (result ≤ 64) }
{
    mask.count_ones() as usize
}

// The bytes of the image of a register that keeps the rules: 26, one for each user, and those of its records.
pub fn image_length(formed: WellFormed) -> usize
    ensures { result ≡ length (encode formed.register) }
{
    let r = &formed.register;
    let founded = items(mask_of(&r.roles));
    let active = items(mask_of(&r.sessions));
    let mut n = 26 + items(r.enrolled) + founded * 20 + active * 6;
    for c in &r.capabilities[..usize::from(r.count)] {
        n += capability_length(*c);
    }
    n
}
