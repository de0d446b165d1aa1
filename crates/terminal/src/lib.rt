// The journal program over the buffers that it is lent: standard input from a fresh register, the answers on standard output, a
// fault on standard error. One byte more than the limit is read, so that a longer input is known.
#![tactic(auto)]

ghost use Rattle.std.specs.Prelude.{◌≡◌, ◌≤◌, length, take};
ghost use Rattle.std.specs.Io.KnownBytes.{Appends, Consumes, Keeps};
ghost use Rattle.masks.specs.Bytes.{front};
ghost use Rattle.model.specs.Journal.{program};
ghost use Rattle.terminal.specs.Transfer.{Transfers};
ghost use Rattle.terminal.specs.Played.{Answers, AnswersWhole, Replies, Plays};

use options::Wish;
use std::io;
use std::io::{Input, Read, Write};
use transfer::{End, Transferred, drain, fill};

mod faults;
pub mod options;
pub mod transfer;

// What was read and what was written.
#[derive(Clone, Copy)]
pub struct Played {
    pub input: Transferred,
    pub output: Transferred,
}

#[tactic(auto, using(crate::proofs::Laws::program_length, crate::proofs::Laws::program_output))]
fn answer(input: &[u8], out: &mut [u8]) -> usize
    requires { 163840 ≤ length out.old }
    ensures { (result ≡ length (program input.now)) × (out.new ≡ front (program input.now) out.old) × (result ≤ length out.new) }
{
    player::journal(model::fresh(), input, out)
}

// What was not written whole is told on standard error. Some writers say so only as they are flushed.
fn finish<W: Write, E: Eprint>(rt: &E, writer: &mut W, written: Transferred)
    ensures { Keeps (W.contents writer.old) (W.contents writer.new) }
{
    if let End::Failed(error) = written.end {
        faults::tell(rt, "journal: output", error);
        return;
    }
    if written.count == 0 {
        return;
    }
    if let Err(error) = writer.flush() {
        faults::tell(rt, "journal: output", error);
    }
}

// The answers to an input, written out.
fn reply<W: Write, E: Eprint>(rt: &E, writer: &mut W, input: &[u8], out: &mut [u8]) -> Transferred
    requires in_bounds { 163840 ≤ length out.old }
    ensures replies { Replies input.now out.old out.new result }
    ensures bytes { Appends (W.contents writer.old) (W.contents writer.new) (take result.count (program input.now)) }
{
    let k = answer(input, out);
    let written = drain(writer, &out[..k]);
    finish(rt, writer, written);
    written
}

// Plays what a reader gives. Where it cannot be read to its end, that is told on standard error and nothing is answered. The room for
// answers is a clause, as slices have it; `play` below has it in a type.
pub fn play_streams<R: Read, W: Write, E: Eprint>(
    rt: &E,
    reader: &mut R,
    writer: &mut W,
    room: &mut [u8],
    out: &mut [u8],
) -> Played
    requires { 163840 ≤ length out.old }
    ensures transfers { Transfers (length room.new) result.input }
    ensures answers { Answers result.input.end (take result.input.count room.new) out.old out.new result.output }
    ensures reads { Consumes (R.remaining reader.old) (R.remaining reader.new) (take result.input.count room.new) }
    ensures writes { Appends (W.contents writer.old) (W.contents writer.new) (take result.output.count (program (take result.input.count room.new))) }
    ensures whole { AnswersWhole result (R.remaining reader.old) (W.contents writer.old) (W.contents writer.new) }
{
    let input = fill(reader, room);
    if let End::Failed(error) = input.end {
        faults::tell(rt, "journal: input", error);
        let output = Transferred {
            count: 0,
            end: input.end,
        };
        return Played { input, output };
    }
    let output = reply(rt, writer, &room[..input.count], out);
    Played { input, output }
}

// Plays standard input, and answers on standard output.
pub fn play(rt: &HostRuntime, input: &mut [u8; 32769], out: &mut [u8; 163840]) -> Played
    ensures { Plays input.new out.old out.new result }
{
    play_streams(rt, &mut rt.reader(), &mut io::writer(rt), input, out)
}

// Writes what is asked for in place of a journal.
fn show<R: Print + Eprint>(rt: &R, text: &str) {
    let mut writer = io::writer(rt);
    let written = drain(&mut writer, text.as_bytes());
    finish(rt, &mut writer, written);
}

// Tells what was asked for in place of a journal. Arguments that are not known are told on standard error, as a fault is.
pub fn inform<R: Print + Eprint>(rt: &R, wish: Wish) {
    match wish {
        Wish::Help => show(
            rt,
            "usage: fellunqa-journal < LINES
       fellunqa-journal --help | --version

Plays the lines of standard input, in their order, on a fresh register of capabilities, and answers each with a line:
'ok' and a value, or 'no' and the number of a refusal. fellunqa-journal(1) has the lines, the refusals and the limits.
A fault is one line on standard error; the status is 0 all the same.
",
        ),
        Wish::Version => show(rt, "fellunqa-journal 0.5.0\n"),
        Wish::Unknown => {
            let _ = rt.eprintln("journal: unknown arguments; --help tells the use");
        }
    }
}
