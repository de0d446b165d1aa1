// What the program's arguments ask for in place of a journal. No contract of the libraries says what an argument holds, so what is proved
// is what a word asks for.
ghost use Rattle.std.specs.Prelude.{◌≡◌};
ghost use Rattle.terminal.specs.Options.{asked};

use buffers::same_bytes;
use std::env::FillError;
use std::rt::Env;

#[derive(Clone, Copy)]
pub enum Wish {
    Help,
    Version,
    Unknown,
}

fn wish_of(word: &[u8]) -> Wish
    ensures { result ≡ asked word.now }
{
    if same_bytes(word, b"--help") {
        Wish::Help
    } else if same_bytes(word, b"--version") {
        Wish::Version
    } else {
        Wish::Unknown
    }
}

// What is asked for in place of a journal, which is played where there are no arguments. One that the room cannot hold is no known word.
pub fn asked_for<R: Env>(rt: &R) -> Option<Wish> {
    let mut room = [0u8; 16];
    let Err(FillError::NotPresent) = rt.arg(2, &mut room) else {
        return Some(Wish::Unknown);
    };
    match rt.arg(1, &mut room) {
        Ok(n) => Some(wish_of(&room[..n])),
        Err(FillError::TooLong) => Some(Wish::Unknown),
        Err(FillError::NotPresent) => None,
    }
}
