// The image of the register, and the calls save and load.
#![tactic(auto)]

ghost use Rattle.std.specs.Prelude.{◌≡◌, length};
ghost use Rattle.model.specs.Requests.{outcome_of, effect_of};
ghost use Rattle.model.specs.Image.{decode, loads, save_effect, saved_buffer, load_effect};

use decoding::{ReadImage, read_image};
use encoding::length::image_length;
use encoding::put_image;
use model::formed::WellFormed;
use model::{Answer, Refusal, Register, Reply};
use rules::{well_formed, well_formed_read};

// Saves a register that keeps the rules, without testing them. Whether there is room is decided before anything is written, by the
// most that the image can have or else by its length.
pub fn save_trusted(formed: WellFormed, buffer: &mut [u8]) -> Answer
    ensures { (outcome_of result ≡ (save_effect formed.register (length buffer.old)).answer) × (buffer.new ≡ saved_buffer formed.register buffer.old (save_effect formed.register (length buffer.old)).answer) }
{
    let r = formed.register;
    let room = buffer.len();
    let most = 1114 + 48 * usize::from(r.count);
    if room < most && room < image_length(formed) {
        return Err(Refusal::Room);
    }
    Ok(put_image(buffer, r) as u32)
}

// "save into an area. 16 area too short. The value is the length"; 15 where a rule is broken. Refused, it touches nothing.
pub fn save(r: Register, buffer: &mut [u8]) -> Answer
    ensures { (outcome_of result ≡ (save_effect r (length buffer.old)).answer) × (buffer.new ≡ saved_buffer r buffer.old (save_effect r (length buffer.old)).answer) }
{
    if !well_formed(r) {
        return Err(Refusal::Broken);
    }
    save_trusted(WellFormed { register: r }, buffer)
}

// The register in an image, and whether load accepts the bytes: `exact` is its whole test here. No bytes are read as zero bytes, so
// the empty image is the fresh register. Where they are not accepted, the register is what was read of them, and not to be used.
pub fn read_checked(s: &[u8]) -> ReadImage
    ensures { (result.exact ≡ loads s.now) × (result.register ≡ decode s.now) }
{
    let mut read = read_image(s);
    let formed = well_formed_read(read.register);
    // `&` and `|` have no branch, so that the proof has one path.
    read.exact = formed & (s.is_empty() | read.exact);
    read
}

// load: the register of the image, the fresh one of no bytes. Refused with 14, the register stays as it was.
pub fn load(r: Register, s: &[u8]) -> Reply
    ensures { effect_of result ≡ load_effect r s.now }
{
    let read = read_checked(s);
    if read.exact {
        Reply {
            answer: Ok(0),
            register: read.register,
        }
    } else {
        Reply {
            answer: Err(Refusal::Image),
            register: r,
        }
    }
}
