// A fault told on standard error.
ghost use Rattle.std.specs.Prelude.{◌≤◌};

use std::io::Write;
use std::{fmt, io};

// A line of what failed and why. Where even that cannot be written, nobody is left to be told.
pub(crate) fn tell<R: Eprint>(rt: &R, what: &str, error: io::Error) {
    let why = Why(error);
    let _ = eprintln!(rt; "{what}: {why}");
}

// Why a call failed, in the system's words alone: std puts the number of the error after them.
#[derive(Clone, Copy)]
struct Why(io::Error);

impl fmt::Display for Why {
    fn fmt<W: fmt::Write>(&self, f: &mut fmt::Formatter<W>) -> fmt::Result {
        let mut room = [0u8; 320];
        let n = printed(self.0, &mut room);
        let text = std::str::from_utf8(&room[..n]).unwrap_or("");
        f.write_str(without_number(text))
    }
}

// Puts std's text of an error into the room, and says how many bytes it has.
fn printed(error: io::Error, room: &mut [u8; 320]) -> usize
    ensures { result ≤ 320 }
{
    let mut rest: &mut [u8] = room;
    let _ = write!(rest, "{error}");
    320usize.saturating_sub(rest.len())
}

fn without_number(text: &str) -> &str {
    match text.split_once(" (os error ") {
        Some((words, _)) => words,
        None => text,
    }
}
