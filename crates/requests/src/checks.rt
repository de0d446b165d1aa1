// The quick way for a check, which a journal has most of: its line is read without a look at the other request words. Of any other
// line, and of one whose numbers have more than two digits, nothing is said: `parse` reads those.
ghost use Rattle.requests.specs.Quick.{Quickly};

use buffers::same_bytes;
use model::Context;
use text::short::short_number;

// The session, the permission and the context of a check.
pub fn check_of(line: &[u8]) -> Option<(u32, u32, Context)>
    ensures { Quickly line.now result }
{
    if line.len() < 6 || !same_bytes(&line[..6], b"check ") {
        return None;
    }
    let (session, rest) = short_number(&line[5..])?;
    let (permission, rest) = short_number(rest)?;
    let (hour, rest) = short_number(rest)?;
    let (place, rest) = short_number(rest)?;
    let (device, rest) = short_number(rest)?;
    if !rest.is_empty() {
        return None;
    }
    let at = Context {
        hour,
        place,
        device,
    };
    Some((session, permission, at))
}
