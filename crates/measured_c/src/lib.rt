// A journal over a saved register as a symbol of a static library, which the benchmark links: the function of the library `measured`,
// and what it says. It is no part of the C library.
#![tactic(auto)]

ghost use Rattle.std.specs.Prelude.{◌≡◌};
ghost use Rattle.measured.specs.Measured.{played_length, played_buffer};

// Plays the lines on the register whose image is given and prints the answers into the output; it returns how many bytes they take.
// Where the bytes are no image, nothing is written, and it returns 0.
#[unsafe(no_mangle)]
pub extern "C" fn measured_play(image: &[u8], lines: &[u8], out: &mut [u8]) -> usize
    ensures { (result ≡ played_length image.now lines.now out.old) × (out.new ≡ played_buffer image.now lines.now out.old) }
{
    measured::measured_play(image, lines, out)
}
