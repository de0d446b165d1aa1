// A journal over a saved register, so that calls can be measured from outside without a process and without saving. It is no part of
// the C library.
#![tactic(auto)]

ghost use Rattle.std.specs.Prelude.{◌≡◌};
ghost use Rattle.measured.specs.Measured.{played_length, played_buffer};

use image::load;
use model::fresh;
use player::journal;

// Plays the lines on the register whose image is given and prints the answers into the output; it returns how many bytes they take.
// Where the bytes are no image, nothing is written, and it returns 0.
#[tactic(auto, using(crate::proofs::Laws::not_played, crate::proofs::Laws::is_played))]
pub fn measured_play(image: &[u8], lines: &[u8], out: &mut [u8]) -> usize
    ensures { (result ≡ played_length image.now lines.now out.old) × (out.new ≡ played_buffer image.now lines.now out.old) }
{
    let loaded = load(fresh(), image);
    let Ok(_) = loaded.answer else {
        return 0;
    };
    journal(loaded.register, lines, out)
}
