// Bytes from a reader and to a writer, by as many calls as they ask for: which bytes, where those of the reader or the writer are
// known. Those of standard input and output are not, so of them it is said how many, and why a transfer stopped.
ghost use Rattle.std.specs.Prelude.{length, take};
ghost use Rattle.std.specs.Io.KnownBytes.{Appends, Consumes};
ghost use Rattle.terminal.specs.Transfer.{Moves, StopsAtEnd, moved, EndsAtEnd, Transfers};

use std::io::{ErrorKind, Read, Write};
use std::{io, thread};

// Why a transfer stopped: the input ended, all of the lent bytes were moved, or a call failed, with its error.
#[derive(Clone, Copy)]
pub enum End {
    Ended,
    Whole,
    Failed(io::Error),
}

// How many bytes were moved, and why no more.
#[derive(Clone, Copy)]
pub struct Transferred {
    pub count: usize,
    pub end: End,
}

// Whether a call that failed is to be tried again: a signal interrupted it, or the descriptor would block.
fn again(error: io::Error) -> bool {
    match error.kind() {
        ErrorKind::WouldBlock => {
            thread::yield_now();
            true
        }
        ErrorKind::Interrupted => true,
        _ => false,
    }
}

// What one call came to: so many bytes, none where it is to be tried again, or the end.
fn read_some<R: Read>(input: &mut R, room: &mut [u8]) -> Result<usize, End>
    ensures moves { Moves (length room.new) result }
    ensures bytes { Consumes (R.remaining input.old) (R.remaining input.new) (take (moved result) room.new) }
    ensures end { StopsAtEnd result (R.remaining input.new) }
{
    if room.is_empty() {
        return Err(End::Whole);
    }
    match input.read(room) {
        Ok(0) => Err(End::Ended),
        Ok(n) => Ok(n),
        Err(error) if again(error) => Ok(0),
        Err(error) => Err(End::Failed(error)),
    }
}

fn write_some<W: Write>(output: &mut W, bytes: &[u8]) -> Result<usize, End>
    ensures moves { Moves (length bytes.now) result }
    ensures bytes { Appends (W.contents output.old) (W.contents output.new) (take (moved result) bytes.now) }
{
    if bytes.is_empty() {
        return Err(End::Whole);
    }
    match output.write(bytes) {
        Ok(0) => Err(End::Failed(io::Error::from(ErrorKind::WriteZero))),
        Ok(n) => Ok(n),
        Err(error) if again(error) => Ok(0),
        Err(error) => Err(End::Failed(error)),
    }
}

// Reads until the input ends, the room is full or a read fails. A proved loop has to end, and nothing says that a descriptor which
// would block stops doing so: the turns are bounded by a number that no run uses up.
#[tactic(auto, using(crate::proofs::Laws::reads_on))]
pub fn fill<R: Read>(input: &mut R, room: &mut [u8]) -> Transferred
    ensures transfers { Transfers (length room.new) result }
    ensures bytes { Consumes (R.remaining input.old) (R.remaining input.new) (take result.count room.new) }
    ensures end { EndsAtEnd result.end (R.remaining input.new) }
{
    let mut count = 0;
    for _ in 0..u64::MAX {
        match read_some(input, &mut room[count..]) {
            Ok(k) => count += k,
            Err(end) => return Transferred { count, end },
        }
    }
    let end = End::Failed(io::Error::from(ErrorKind::WouldBlock));
    Transferred { count, end }
}

// Writes until all is written or a write fails. One loop for both would be no plainer: a trait with its law, and a struct for each.
#[tactic(auto, using(crate::proofs::Laws::writes_on))]
pub fn drain<W: Write>(output: &mut W, bytes: &[u8]) -> Transferred
    ensures transfers { Transfers (length bytes.now) result }
    ensures bytes { Appends (W.contents output.old) (W.contents output.new) (take result.count bytes.now) }
{
    let mut count = 0;
    for _ in 0..u64::MAX {
        match write_some(output, &bytes[count..]) {
            Ok(k) => count += k,
            Err(end) => return Transferred { count, end },
        }
    }
    let end = End::Failed(io::Error::from(ErrorKind::WouldBlock));
    Transferred { count, end }
}
