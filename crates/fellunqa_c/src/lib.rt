// The C entry point as a symbol of a static library, which C programs link: the function of the library `fellunqa`, and what it says.
#![tactic(auto)]

ghost use Rattle.std.specs.Prelude.{◌≡◌, length};
ghost use Rattle.model.specs.Entry.{entry, returned, buffer_after};

// One call from C, on the register whose image is given. It returns the value, with the new image's length in two bytes and
// the new image at the front of the area; or a refusal as a negative number, with the area as it was.
#[unsafe(no_mangle)]
pub extern "C" fn fellunqa_apply(image: &[u8], line: &[u8], area: &mut [u8]) -> i64
    ensures { (result ≡ returned (entry image.now line.now (length area.old))) × (area.new ≡ buffer_after (entry image.now line.now (length area.old)) area.old) }
{
    fellunqa::fellunqa_apply(image, line, area)
}
