// Cases played as the journal program plays them, held to the answers of the independent implementation.
#![tactic(auto)]

fn main(rt: HostRuntime) {
    let mut input = [0u8; 32769];
    let mut out = [0u8; 163840];
    terminal::play(&rt, &mut input, &mut out);
}
